// Values into lent places, for a caller in another language.
#![tactic(auto)]

ghost use Rattle.std.specs.Prelude.{◌≡◌};
ghost use Rattle.structure.specs.Rows.{or_else};
ghost use Rattle.hand.specs.Places.{Hands};

// The result where the places are too few: the question's own refusal, else 16.
pub fn or_short(refusal: u32) -> u32
    ensures { result ≡ or_else refusal 16 }
{
    if refusal != 0 { refusal } else { 16 }
}

// Puts the values into the first places and answers the refusal; where the places are too few, leaves them as they are.
pub fn hand<T: Copy>(refusal: u32, values: &[T], places: &mut [T]) -> u32
    ensures { Hands refusal values.now places.old result places.new }
{
    let n = values.len();
    if places.len() < n {
        return or_short(refusal);
    }
    places[..n].copy_from_slice(values);
    refusal
}
