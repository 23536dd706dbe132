// The names of a note, as places in some bytes.
ghost use Rattle.std.specs.Prelude.{◌≡◌, ◌∷◌, None};
ghost use Rattle.depslog.specs.Calls.{fault_or};
ghost use Rattle.depslog.specs.Noting.{place_fault, name_fault};

use notes::Given;
use terms::{Place, Refusal, is_name};

// Whether the place with an index lies in the bytes, and a name stands there.
fn check_place(bytes: &[u8], place: Place, index: usize) -> Result<(), Refusal>
    ensures { result ≡ fault_or (place_fault bytes.now index place None) tt }
{
    if place.start > bytes.len() || place.length > bytes.len() - place.start {
        return Err(Refusal::Outside(index));
    }
    if !is_name(place.of(bytes)) {
        return Err(Refusal::NotName(index));
    }
    Ok(())
}

// Whether the output and each input lie in the bytes and are names.
pub(super) fn check_names(note: &Given) -> Result<(), Refusal>
    ensures { result ≡ fault_or (name_fault note.now.bytes.now 0 (note.now.output ∷ note.now.inputs.now) None) tt }
{
    check_place(note.bytes, note.output, 0)?;
    for (k, place) in note.inputs.iter().enumerate() {
        check_place(note.bytes, *place, k + 1)?;
    }
    Ok(())
}
