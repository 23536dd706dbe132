// Decimal numbers.
ghost use Rattle.std.specs.Prelude.{◌≡◌, if◌then◌else◌, Some, None, nat_le};
ghost use Rattle.listing.specs.Rows.{decimal};

const LATEST: u128 = 9223372036854775807;

// The number that digits say, where it is at most 2^63 - 1.
pub(super) fn number(digits: &[u8]) -> Option<u64>
    ensures { result ≡ (if nat_le (decimal 0 digits.now) 9223372036854775807 then Some (decimal 0 digits.now) else None) }
{
    let mut value = 0u64;
    'digits: for digit in digits {
        let next = u128::from(value) * 10 + u128::from(digit.saturating_sub(b'0'));
        if next > LATEST {
            return None;
        }
        value = next as u64;
    }
    Some(value)
}
