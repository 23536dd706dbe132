// Making a name, and its bytes.
ghost use Rattle.std.specs.Prelude.{◌≡◌, true, if◌then◌else◌, Some, None};
ghost use Rattle.std.specs.Option.{option_map};
ghost use Rattle.terms.specs.Names.{is_name};
ghost use Rattle.image.specs.View.{text};

use super::name::Name;
use terms::{Few, is_name};

impl Name {
    // The name of these bytes, where they are 1 to 120 and none is zero.
    pub fn new(from: &[u8]) -> Option<Name>
        ensures { option_map text result ≡ (if is_name from.now then Some from.now else None) }
    {
        if !is_name(from) {
            return None;
        }
        let mut bytes = Few::new(0);
        bytes.extend_from_slice(from).unwrap();
        Some(Name { bytes })
    }

    pub fn as_bytes(&self) -> &[u8]
        ensures bytes { result.now ≡ text self.now }
        ensures named { is_name result.now ≡ true }
    {
        self.bytes.as_slice()
    }
}
