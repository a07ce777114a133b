// The encoder: a command in, the packet that says it out. Definition: specs/Encode.antt. Laws:
// proofs/EncoderLaws.antt. What a command's packet is, and which numbers have room in it, is said in
// the crate `command`, by which the module reads too.
ghost use Rattle.host.specs.Encode.{EncodePromise, encoded_as};

use command::Command;
use line::Packet;
use refusals::Refusal;

// The packet that says a command, its unread bits 0; a pair is two calls. Refuses with 8 a command
// one of whose numbers has no room in its packet, and nothing else; there is no packet then.
pub fn encode(command: Command) -> Result<Packet, Refusal>
    ensures { EncodePromise command (encoded_as result) }
{
    if command.has_room() {
        Ok(command.packet())
    } else {
        Err(Refusal::Room)
    }
}
