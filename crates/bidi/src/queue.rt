// The queue's bytes: room for eight messages of four bytes, the oldest first; unused bytes are 0. An array by
// value, whose entries `history` has not: it takes lent slices, and what both promise is said in `slots`.
ghost use Rattle.std.specs.Prelude.{◌≡◌, ◌*◌, ◌<◌, drop};
ghost use Rattle.slots.specs.Slots.{all_zero};
ghost use Rattle.bidi.specs.Bidi.{joined_by, oldest, after_oldest};

// So many messages the queue holds.
pub const MESSAGES: u8 = 8;

// So many bytes a message has.
const MESSAGE_BYTES: usize = 4;

// So many bytes the queue has.
const QUEUE_BYTES: usize = 32;

// Whether every byte behind so many messages is 0.
pub fn rest_zero(queue: [u8; 32], queued: u8) -> bool
    ensures { result ≡ all_zero (drop (4 * queued) queue) }
{
    let used = usize::from(queued) * MESSAGE_BYTES;
    queue.iter().skip(used).all(|byte| *byte == 0)
}

// The queue with a message at its first free place.
pub fn joined(mut queue: [u8; 32], queued: u8, message: [u8; 4]) -> [u8; 32]
    requires { queued < 8 }
    ensures { result ≡ joined_by queue queued message }
{
    let at = usize::from(queued) * MESSAGE_BYTES;
    queue[at..at + MESSAGE_BYTES].copy_from_slice(&message);
    queue
}

// The oldest message. Its four bytes are named: a part as an array is an `Option`, which here is never none.
pub fn first(queue: [u8; 32]) -> [u8; 4]
    ensures { result ≡ oldest queue }
{
    [queue[0], queue[1], queue[2], queue[3]]
}

// The queue without its oldest message: the others move up by a place, and the place that is freed
// becomes 0.
pub fn without_first(mut queue: [u8; 32]) -> [u8; 32]
    ensures { result ≡ after_oldest queue }
{
    queue.copy_within(MESSAGE_BYTES.., 0);
    queue[QUEUE_BYTES - MESSAGE_BYTES..].fill(0);
    queue
}
