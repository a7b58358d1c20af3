// A register's value in a state.
ghost use Rattle.std.specs.Prelude.{◌≡◌};
ghost use Rattle.arguments.specs.Arguments.{with_register};

use machine::State;

// The state with a register's value, by the register's place in the record.
#[tactic(auto, unfolding(crate::specs::Arguments::with_register))]
pub fn with_register(s: State, place: u8, value: u16) -> State
    ensures { result ≡ with_register place value s }
{
    let mut bytes = channels::saved(s);
    match place {
        0..=12 => bytes[place as usize] = (value % 256) as u8,
        13 => bytes[13..15].copy_from_slice(&value.to_be_bytes()),
        _ => {}
    }
    channels::loaded(&bytes)
}
