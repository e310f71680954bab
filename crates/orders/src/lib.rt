// The orders in which columns are taken, each said once for all who use it.
#![tactic(auto)]

ghost use Rattle.std.specs.Prelude.{◌≡◌, [], ◌≤◌, ◌<◌, get_or};
ghost use Rattle.sheet.specs.Counts.{most_tti, most_frames};
ghost use Rattle.orders.specs.Orders.{orders, column_at, order};

use sheet::counts::FRAMES;

// Step 2: one row for each TTI, filled to the frames of the longest.
pub const ORDERS: [[u8; FRAMES]; 4] = [
    [0, 0, 0, 0, 0, 0, 0, 0],
    [0, 1, 0, 0, 0, 0, 0, 0],
    [0, 2, 1, 3, 0, 0, 0, 0],
    [0, 4, 2, 6, 1, 5, 3, 7],
];

// Step 8.
pub const ORDER: [u8; 30] = [
    0, 20, 10, 5, 15, 25, 3, 13, 23, 8, 18, 28, 1, 11, 21, 6, 16, 26, 4, 14, 24, 19, 9, 29, 12, 2,
    7, 22, 27, 17,
];

// P(n): entry n of the TTI's row.
pub fn column(tti: usize, n: usize) -> usize
    requires { (tti ≤ most_tti) × (n < most_frames) }
    ensures { (result ≡ column_at tti n) × (result < most_frames) }
{
    usize::from(ORDERS[tti][n])
}

// The TTI's row as a local: an index into the constant would lay the whole table down anew at each use in a loop.
#[tactic(auto, unfolding(crate::specs::Orders::orders))]
pub fn row(tti: usize) -> [u8; FRAMES]
    requires { tti ≤ most_tti }
    ensures { result ≡ get_or orders tti [] }
{
    ORDERS[tti]
}

// Step 8's order as a local, for the same reason.
#[tactic(auto, unfolding(crate::specs::Orders::order))]
pub fn columns() -> [u8; 30]
    ensures { result ≡ order }
{
    ORDER
}
