// Marks: whether a grid's are lawful, settling one, and, of a customer's own, reading one and how many jobs are settled.
ghost use Rattle.std.specs.Prelude.{◌≡◌, map, ◌≤◌, ◌<◌, length};
ghost use Rattle.order.specs.Lists.{keep};
ghost use Rattle.campaign.specs.Grid.{job_of, count_from, jobs, lawful_mark, lawful_marks, settled, settle};

// Whether mark `i` is within 0 to 3, and 0 where there is no job.
#[tactic(auto, unfolding(crate::specs::Grid::lawful_mark))]
fn lawful_at(mark: u8, i: usize, rows: usize, cols: usize) -> bool
    ensures { result ≡ lawful_mark rows cols i mark }
{
    mark == 0 || (mark <= 3 && i / 32 < rows && i % 32 < cols)
}

// Whether each mark is lawful.
pub(super) fn lawful(rows: usize, cols: usize, marks: &[u8]) -> bool
    ensures { result ≡ lawful_marks rows cols 0 marks.now }
{
    for (i, &mark) in marks.iter().enumerate() {
        if !lawful_at(mark, i, rows, cols) {
            return false;
        }
    }
    true
}

// Whether a job is settled.
#[tactic(auto, unfolding(crate::specs::Grid::settled, crate::specs::Grid::mark_of))]
pub(super) fn is_settled(marks: &[u8], a: usize, b: usize) -> bool
    requires { (a ≤ 32) × (b ≤ 32) }
    ensures { result ≡ settled marks.now (job_of a b) }
{
    let at = 32 * a + b;
    at < marks.len() && marks[at] == 1
}

// The marks with a customer's job settled.
#[tactic(auto, unfolding(crate::specs::Grid::mark_of))]
pub(super) fn settle(customer: u32, marks: [u8; 1024], a: usize, b: usize) -> [u8; 1024]
    requires { (a < 32) × (b < 32) }
    ensures { result ≡ settle customer marks (job_of a b) }
{
    customers::settled_at(customer, marks, 32 * a + b)
}

// How many jobs of a strip of the first list are settled.
fn row(marks: &[u8], a: usize, cols: usize) -> u32
    requires { (a ≤ 32) × (cols ≤ 32) }
    ensures { result ≡ length (keep (settled marks.now) (map (job_of a) (count_from 0 cols))) }
{
    let mut count = 0;
    for b in 0..cols {
        if is_settled(marks, a, b) {
            count += 1;
        }
    }
    count
}

// How many jobs are settled.
pub(super) fn settled_jobs(marks: &[u8], rows: usize, cols: usize) -> u32
    requires { (rows ≤ 32) × (cols ≤ 32) }
    ensures { result ≡ length (keep (settled marks.now) (jobs rows cols)) }
{
    let mut count = 0;
    for a in 0..rows {
        count += row(marks, a, cols);
    }
    count
}
