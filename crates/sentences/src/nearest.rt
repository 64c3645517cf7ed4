// The call that a word which is no call is near to.
use script::forms;
use script::forms::FORMS;

// The row of the call whose name is nearest to a word, the first of several: a name that is the word but for case, or else one that one change of a
// character makes.
pub fn row(word: &[u8]) -> Option<&'static str> {
    FORMS
        .lines()
        .find(|row| forms::name_of(row).is_some_and(|name| alike(word, name)))
        .or_else(|| FORMS.lines().find(|row| forms::name_of(row).is_some_and(|name| near(
            word, name,
        ))))
}

// Whether two texts are the same but for case.
fn alike(a: &[u8], b: &[u8]) -> bool {
    a.len() == b.len() && a.iter().zip(b).all(|(x, y)| x.eq_ignore_ascii_case(y))
}

// Whether one character put in, left out or changed, or two neighbours exchanged, make the word the name but for case.
fn near(word: &[u8], name: &[u8]) -> bool {
    let same = word
        .iter()
        .zip(name)
        .take_while(|(x, y)| x.eq_ignore_ascii_case(y))
        .count();
    match (&word[same..], &name[same..]) {
        ([_, a @ ..], [_, b @ ..]) if alike(a, b) => true,
        (a, [_, b @ ..]) if alike(a, b) => true,
        ([_, a @ ..], b) if alike(a, b) => true,
        ([p, q, a @ ..], [r, s, b @ ..]) => alike(&[*p, *q], &[*s, *r]) && alike(a, b),
        _ => false,
    }
}
