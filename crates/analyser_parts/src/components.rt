// The tests of components and of buffer lengths.
ghost use Rattle.std.specs.Prelude.{◌≡◌, ◌||◌};
ghost use Rattle.analyser_parts.specs.Components.{in_range, outside, either_shorter};

// Whether x is from -100000 to 100000.
fn is_in_range(x: i32) -> bool
    ensures { result ≡ in_range x }
{
    (-100000..=100000).contains(&x)
}

// Whether a component is out of range. All are looked at, for that is faster than to stop at the first; `fold` makes read at Q 16 slower by 4 %.
fn any_outside(x: &[i32]) -> bool
    ensures { result ≡ outside x.now }
{
    let mut found = false;
    for &c in x {
        found |= !is_in_range(c);
    }
    found
}

// The same of two buffers.
pub fn either_outside(re: &[i32], im: &[i32]) -> bool
    ensures { result ≡ (outside re.now || outside im.now) }
{
    any_outside(re) || any_outside(im)
}

// Whether either of two buffers, of m and n entries, has fewer than `least`.
pub fn is_either_shorter(m: usize, n: usize, least: usize) -> bool
    ensures { result ≡ either_shorter m n least }
{
    m < least || n < least
}
