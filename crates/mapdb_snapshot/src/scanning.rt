//! Scanning a text from a place on: what is found stands between the place before and the place
//! after.

ghost use Rattle.std.specs.Prelude.{◌≡◌, ◌∷◌, ◌++◌, ◌+◌, ◌<◌, ◌≤◌, IfSome, OnSome, IfNone};
ghost use Rattle.std.specs.Prelude.{decimal, drop};

/// Passes the byte, if it stands there.
pub(crate) fn byte(text: &[u8], at: &mut usize, wanted: u8) -> Option<()>
    ensures byte { OnSome result (drop at.old text.now ≡ wanted ∷ drop at.new text.now) }
    ensures none { IfNone result (at.new ≡ at.old) }
{
    let found = *text.get(*at)?;
    if found != wanted {
        return None;
    }
    *at += 1;
    Some(())
}

/// Passes the bytes, if they stand there.
pub(crate) fn bytes(text: &[u8], at: &mut usize, wanted: &[u8]) -> Option<()>
    ensures { OnSome result (drop at.old text.now ≡ wanted.now ++ drop at.new text.now) }
{
    for one in wanted {
        byte(text, at, *one)?;
    }
    Some(())
}

/// The digit that stands there, as a number.
fn digit(text: &[u8], at: &mut usize) -> Option<u64>
    ensures digit { IfSome result (λ d. drop at.old text.now
        ≡ (48 + d) ∷ drop at.new text.now) }
    ensures below { IfSome result (λ d. d < 10) }
    ensures none { IfNone result (at.new ≡ at.old) }
{
    let found = *text.get(*at)?;
    if !found.is_ascii_digit() {
        return None;
    }
    *at += 1;
    Some(u64::from(found - b'0'))
}

/// The number that stands there without leading zeros, if it has 64 bits.
fn number(text: &[u8], at: &mut usize) -> Option<u64>
    ensures { IfSome result (λ n. drop at.old text.now ≡ decimal n ++ drop at.new text.now) }
{
    let mut number = digit(text, at)?;
    if number == 0 {
        return Some(0);
    }
    'digits: while let Some(digit) = digit(text, at) {
        number = number.checked_mul(10)?.checked_add(digit)?;
    }
    Some(number)
}

/// The number up to a limit that stands there, with this byte behind it.
pub(crate) fn number_before(text: &[u8], at: &mut usize, most: u64, behind: u8) -> Option<u64>
    ensures number { IfSome result (λ n. drop at.old text.now
        ≡ decimal n ++ behind ∷ drop at.new text.now) }
    ensures most { IfSome result (λ n. n ≤ most) }
{
    let number = number(text, at)?;
    byte(text, at, behind)?;
    if number > most {
        return None;
    }
    Some(number)
}
