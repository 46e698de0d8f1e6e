//! Finds names that may be mistyped forms of other names.
ghost use Rattle.std.specs.Prelude.{◌≡◌, ◌≤◌, length};
ghost use Rattle.kd_slips.specs.NearNames.{alike_at_end, alike_at_start, in_common, is_near};

/// Whether two names differ only in one stretch of letters, which has at most `slips` letters in each name. For
/// example, `ringe` and `rings` differ in one letter.
#[tactic(auto, unfolding(crate::specs::NearNames::is_near))]
pub fn is_near(slips: u8, name: &[u8], known: &[u8]) -> bool
    ensures { result ≡ is_near slips name.now known.now }
{
    let most = if name.len() <= known.len() {
        known.len()
    } else {
        name.len()
    };
    most <= in_common(name, known) + usize::from(slips)
}

/// How many letters two names share at their starts and at their ends, added up; at most the shorter name's length.
fn in_common(name: &[u8], known: &[u8]) -> usize
    ensures value { result ≡ in_common name.now known.now }
    ensures few { result ≤ length name.now }
{
    let most = if name.len() <= known.len() {
        name.len()
    } else {
        known.len()
    };
    let alike = alike_at_start(name, known) + alike_at_end(name, known);
    if alike <= most { alike } else { most }
}

/// How many letters two names have in common at their starts. Capital and small letters count as equal.
fn alike_at_start(name: &[u8], known: &[u8]) -> usize
    ensures value { result ≡ alike_at_start name.now known.now }
    ensures few { result ≤ length name.now }
{
    let [letter, name @ ..] = name else {
        return 0;
    };
    let [other, known @ ..] = known else {
        return 0;
    };
    if !letter.eq_ignore_ascii_case(other) {
        return 0;
    }
    alike_at_start(name, known) + 1
}

/// How many letters two names have in common at their ends. Capital and small letters count as equal.
fn alike_at_end(name: &[u8], known: &[u8]) -> usize
    ensures value { result ≡ alike_at_end name.now known.now }
    ensures few { result ≤ length name.now }
{
    let [name @ .., letter] = name else {
        return 0;
    };
    let [known @ .., other] = known else {
        return 0;
    };
    if !letter.eq_ignore_ascii_case(other) {
        return 0;
    }
    alike_at_end(name, known) + 1
}
