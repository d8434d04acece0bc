// Whether a track's own profile is true.
#![tactic(auto)]

ghost use Rattle.std.specs.Prelude.{◌≡◌};
ghost use Rattle.profile_checks.specs.Checks.{to_fault, Checks};

use places::part_of;
use profile_faults::first_fault;
use questions::Asked;
use refusals::Refusal;
use structure::source::Source;

// A profile that is true, or the place of its first record at fault, from 1.
#[derive(Clone, Copy)]
pub enum ProfileCheck {
    Yes,
    Fault(usize),
}

fn to_fault(place: usize) -> ProfileCheck
    ensures { result ≡ to_fault place }
{
    if place == 0 {
        return ProfileCheck::Yes;
    }
    ProfileCheck::Fault(place)
}

// Whether the stored profile of a track is true.
pub fn check_profile(lent: &[u8], source: Source, id: u32) -> Result<ProfileCheck, Refusal>
    ensures { Checks lent.now source id result }
{
    let asked = Asked::of(lent, source, id)?;
    let trak = asked.trak;
    let body = part_of(lent, trak.body);
    Ok(to_fault(first_fault(body, trak.parts, asked.movie)))
}
