// Requests as rows of numbers, in the order of the record's fields, and their answers as bytes.
ghost use Rattle.std.specs.Prelude.{◌+◌, ◌*◌, ◌≤◌, ◌≡◌, ◌++◌, length, drop, replicate};
ghost use Rattle.guard.specs.Batch.{row_of, row_length, request_at, batch_length};

use crate::Request;
use crate::sizes::ROW;

// As many requests as stand whole in so many numbers and have room for their answers and their roles.
#[tactic(auto, unfolding(crate::specs::Batch::batch_length, crate::specs::Batch::shorter))]
pub fn count(numbers: usize, answers: usize, roles: usize) -> usize
    ensures { result ≡ batch_length numbers answers roles }
{
    (numbers / ROW).min(roles.min(answers))
}

// The request of row `i`. (By a pattern of thirteen names it is proved too, and eighteen lines longer.)
#[tactic(auto, unfolding(crate::specs::Batch::request_at))]
pub fn request(rows: &[u32], i: usize) -> Request
    requires { row_length * i + row_length ≤ length rows.now }
    ensures { result ≡ request_at rows.now i }
{
    let b = ROW * i;
    Request {
        call: rows[b],
        seat: rows[b + 1],
        user: rows[b + 2],
        role: rows[b + 3],
        entity: rows[b + 4],
        parent: rows[b + 5],
        kind: rows[b + 6],
        name: rows[b + 7],
        grade: rows[b + 8],
        cats: rows[b + 9],
        rights: rows[b + 10],
        shared: rows[b + 11],
        junior: rows[b + 12],
    }
}

// A request as a row.
impl From<Request> for [u32; ROW] {
    ghost from_gives = { λ q row. row ≡ row_of q };

    fn from(q: Request) -> [u32; ROW] {
        [
            q.call, q.seat, q.user, q.role, q.entity, q.parent, q.kind, q.name, q.grade, q.cats,
            q.rights, q.shared, q.junior,
        ]
    }
}

// The same, by name.
pub fn row(q: Request) -> [u32; ROW]
    ensures { result ≡ row_of q }
{
    q.into()
}

// The byte `n` for each request of a batch: what all of them are handed back alike.
pub fn fill(bytes: &mut [u8], count: usize, n: u8) -> usize
    requires { count ≤ length bytes.old }
    ensures { (result ≡ count) × (bytes.new ≡ replicate count n ++ drop count bytes.old) }
{
    bytes[..count].fill(n);
    count
}
