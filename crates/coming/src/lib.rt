// What comes in past ageing: what the kinds of packets share.
#![tactic(auto)]

ghost use Rattle.std.specs.Prelude.{◌≡◌};
ghost use Rattle.faces.specs.Places.View.{view};
ghost use Rattle.rules.specs.Node.{Node};
ghost use Rattle.rules.specs.Interest.{out_of_scope};
ghost use Rattle.event.specs.Places.Begins.{allowed};
ghost use Rattle.coming.specs.Goes.{guard_says};

use answers::Answer;
use faces::Faces;
use sizes::{LEAST_BUFFER, MOST_TIME, NAME, PACKET};

// What makes a promise hold of any memory and any buffer, asked again: the last time, the buffer's length, the packet's and the name's.
pub fn guard(time: u64, room: usize, packet: usize, name: usize) -> Result<(), Answer>
    ensures { result ≡ allowed (guard_says time room packet name) }
{
    if MOST_TIME < time {
        return Err(Answer::Clock);
    }
    if room < LEAST_BUFFER {
        return Err(Answer::SmallBuffer);
    }
    if PACKET < packet || NAME < name {
        return Err(Answer::TooLong);
    }
    Ok(())
}

// "under /localhost from a non-local face"
pub fn is_out_of_scope(faces: Faces, face: usize, name: &[u8]) -> bool
    ensures { (n : Node) → n.faces ≡ view faces → result ≡ out_of_scope n face name.now }
{
    names::under_localhost(name) && !faces.is_local(face)
}
