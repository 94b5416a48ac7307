// A lent column: its element at a place, a value put in with what stands behind it moved up by one, and an element taken out
// with what stands behind it moved down. One function does it for every type of element.
#![tactic(auto)]

ghost use Rattle.std.specs.Prelude.{◌≡◌, ◌≤◌, ◌<◌, length, get_or};
ghost use Rattle.column.specs.Column.{inserted, removed};

// The element at a place, `default` past the end.
pub fn get<T: Copy>(column: &[T], i: usize, default: T) -> T
    ensures { result ≡ get_or column.now i default }
{
    if i < column.len() { column[i] } else { default }
}

// Puts a value at the start, moving up by one what stands there and on to place `n`.
fn push<T: Copy>(column: &mut [T], n: usize, value: T)
    requires { n < length column.old }
    ensures { column.new ≡ inserted 0 n value column.old }
{
    for i in (0..n).rev() {
        column[i + 1] = column[i];
    }
    column[0] = value;
}

// Puts a value at place `p`, moving up by one what stands there and on to place `n`.
pub fn insert<T: Copy>(column: &mut [T], p: usize, n: usize, value: T)
    requires { (p ≤ n) × (n < length column.old) }
    ensures { column.new ≡ inserted p n value column.old }
{
    push(&mut column[p..], n - p, value);
}

// Takes out the first element, moving down by one what stands behind it and before place `n`; the last of these stays.
fn pull<T: Copy>(column: &mut [T], n: usize)
    requires { n ≤ length column.old }
    ensures { column.new ≡ removed 0 n column.old }
{
    for i in 1..n {
        column[i - 1] = column[i];
    }
}

// Takes out the element at place `p`, moving down by one what stands behind it and before place `n`; the last of these stays.
pub fn remove<T: Copy>(column: &mut [T], p: usize, n: usize)
    requires { (p < n) × (n ≤ length column.old) }
    ensures { column.new ≡ removed p n column.old }
{
    pull(&mut column[p..], n - p);
}
