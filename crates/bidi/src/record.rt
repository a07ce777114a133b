// The BiDi part of a board's record: what is posted, what is set, what is answered.
ghost use Rattle.std.specs.Prelude.{◌≡◌};
ghost use Rattle.bidi.specs.Bidi.{fresh_bidi, bidi_possible, changed_as, with_queue, posted_to, with_status, silent, answered_call};
ghost use Rattle.bidi.specs.Bidi.{forced_reply, unforced, called_of, called_as};

use crate::legal::{legal_message, legal_status};
use crate::{headers, queue};
use refusals::Refusal;

// The module number that no module has.
const NOBODY: u8 = 0;

// Of the four status numbers of a forced call the last that has a status.
const STATUS_LAST: u8 = 1;

// The empty command, twice.
const EMPTY: [u8; 4] = [headers::FUNCTION, 0, headers::FUNCTION, 0];

// Two statuses, whether a call has been acknowledged since the restart, and the queue: its bytes and
// how many messages wait in it. Any record can be handed in: so the queue is one flat array with its
// count beside it (docs/DECISIONS.md), and `possible` judges both.
#[derive(Clone, Copy)]
pub struct Bidi {
    pub status0: u8,
    pub status1: u8,
    pub registered: bool,
    pub queued: u8,
    pub queue: [u8; 32],
}

// The answer to a call: the four bytes of the reply, none where it is not acknowledged, and the record
// after it.
#[derive(Clone, Copy)]
pub struct Called {
    pub reply: Option<[u8; 4]>,
    pub bidi: Bidi,
}

impl Bidi {
    // What a restart leaves.
    pub fn new() -> Bidi
        ensures { result ≡ fresh_bidi }
    {
        Bidi {
            status0: 0,
            status1: 0,
            registered: false,
            queued: 0,
            queue: [0; 32],
        }
    }

    // What refusal 12 asks of this part: at most 8 messages, unused bytes 0, no reserved status bit.
    // Messages that wait are not judged again.
    #[tactic(auto, unfolding(crate::specs::Bidi::bidi_possible))]
    pub fn possible(self) -> bool
        ensures { result ≡ bidi_possible self }
    {
        self.queued <= queue::MESSAGES
            && queue::rest_zero(self.queue, self.queued)
            && legal_status(0, self.status0)
            && legal_status(1, self.status1)
    }

    // The record with another queue.
    fn with_queue(mut self, queued: u8, queue: [u8; 32]) -> Bidi
        ensures { result ≡ with_queue self queued queue }
    {
        self.queued = queued;
        self.queue = queue;
        self
    }

    // Puts a message behind those that wait. Refuses with 6 a message that isn't legal, then with 7
    // where 8 messages wait; the record is then as it was.
    pub fn post(self, message: [u8; 4]) -> Result<Bidi, Refusal>
        ensures { changed_as self result ≡ posted_to self message }
    {
        if !legal_message(message) {
            return Err(Refusal::Message);
        }
        let queued = self.queued;
        if queue::MESSAGES <= queued {
            return Err(Refusal::Queue);
        }
        Ok(self.with_queue(queued + 1, queue::joined(self.queue, queued, message)))
    }

    // Sets status 0 or 1. Refuses with 11 any other number and a reserved bit; the record is then as
    // it was.
    pub fn set_status(mut self, number: u8, value: u8) -> Result<Bidi, Refusal>
        ensures { changed_as self result ≡ with_status self number value }
    {
        if !legal_status(number, value) {
            return Err(Refusal::Status);
        }
        if number == 0 {
            self.status0 = value;
        } else {
            self.status1 = value;
        }
        Ok(self)
    }

    // No acknowledgement, and nothing changes.
    fn silent(self) -> Called
        ensures { called_as result ≡ silent self }
    {
        Called {
            reply: None,
            bidi: self,
        }
    }

    // An acknowledgement with these bytes, which registers.
    fn answering(mut self, reply: [u8; 4]) -> Called
        ensures { called_as result ≡ answered_call reply self }
    {
        self.registered = true;
        Called {
            reply: Some(reply),
            bidi: self,
        }
    }

    // What a forced call is answered with.
    fn forced_reply(self, status: u8) -> [u8; 4]
        ensures { result ≡ forced_reply self status }
    {
        if status <= STATUS_LAST {
            return [headers::STATUS, self.status0, headers::STATUS, self.status1];
        }
        EMPTY
    }

    // A call for this module that isn't forced.
    fn unforced(self) -> Called
        ensures { called_as result ≡ unforced self }
    {
        let queued = self.queued;
        if 0 < queued {
            let left = self.with_queue(queued - 1, queue::without_first(self.queue));
            return left.answering(queue::first(self.queue));
        }
        if self.registered {
            return self.silent();
        }
        self.answering(EMPTY)
    }

    // A 0x01 call for the module of a number, at a module that goes by `own`. Only the module called
    // answers, and an answer registers. A forced call leaves the queue alone. One that isn't forced
    // takes the oldest message out of it; where none waits, it is answered only if no call has been
    // acknowledged since the restart.
    pub fn call(self, own: u8, number: u8, forced: bool, status: u8) -> Called
        ensures { called_as result ≡ called_of self own number forced status }
    {
        if number == NOBODY {
            return self.silent();
        }
        if number != own {
            return self.silent();
        }
        if forced {
            return self.answering(self.forced_reply(status));
        }
        self.unforced()
    }
}
