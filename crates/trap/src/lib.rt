// A trap: a call between two cycles. The way back is in a word, which the machine knows.
#![tactic(auto)]

ghost use Rattle.std.specs.Prelude.{◌≡◌};
ghost use Rattle.trap.specs.Trap.{trap_of};

use digits::Refusal;
use machine::State;

// A trap between two cycles: the state after it, or 29 or 30, and the machine stands as it stood.
#[tactic(auto, unfolding(crate::specs::Trap::trap_of))]
pub fn trap(state: State, address: u32) -> Result<State, Refusal>
    ensures { result ≡ trap_of address state }
{
    if state.owed {
        return Err(Refusal::Owed);
    }
    if 4095 < address {
        return Err(Refusal::TrapAddress);
    }
    Ok(State {
        wx: address as u16,
        fwx: state.wx,
        owed: true,
        ..state
    })
}
