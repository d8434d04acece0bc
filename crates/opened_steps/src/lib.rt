// A position in a track by its handle: the film is not judged again, and no atoms are walked over.
#![tactic(auto)]

ghost use Rattle.opened_steps.specs.Steps.{StartBy};

use opened::Opened;
use refusals::Refusal;
use stepping::Stepper;
use stepping::parts::start_in;

// Before sample n of the track, numbered from 1.
pub fn start_by(lent: &[u8], h: Opened, n: u32) -> Result<Stepper, Refusal>
    ensures { StartBy lent.now h n result }
{
    let tables = h.tables;
    start_in(lent, tables, h.samples, n)
}
