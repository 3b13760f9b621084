// Pascal's triangle, rows 0 to 16, a row to a line; places 9 and on stand on a page of their own.
ghost use Rattle.std.specs.Prelude.{◌≡◌, ◌≤◌};
ghost use Rattle.binomials.specs.Binomials.{choose};
ghost use Rattle.binomials.specs.Triangle.{entry_at};

// Places 0 to 8 of rows 0 to 16. What stands past a row's end is not read.
const LEFT: [[u64; 9]; 17] = [
    [1, 0, 0, 0, 0, 0, 0, 0, 0],
    [1, 1, 0, 0, 0, 0, 0, 0, 0],
    [1, 2, 1, 0, 0, 0, 0, 0, 0],
    [1, 3, 3, 1, 0, 0, 0, 0, 0],
    [1, 4, 6, 4, 1, 0, 0, 0, 0],
    [1, 5, 10, 10, 5, 1, 0, 0, 0],
    [1, 6, 15, 20, 15, 6, 1, 0, 0],
    [1, 7, 21, 35, 35, 21, 7, 1, 0],
    [1, 8, 28, 56, 70, 56, 28, 8, 1],
    [1, 9, 36, 84, 126, 126, 84, 36, 9],
    [1, 10, 45, 120, 210, 252, 210, 120, 45],
    [1, 11, 55, 165, 330, 462, 462, 330, 165],
    [1, 12, 66, 220, 495, 792, 924, 792, 495],
    [1, 13, 78, 286, 715, 1287, 1716, 1716, 1287],
    [1, 14, 91, 364, 1001, 2002, 3003, 3432, 3003],
    [1, 15, 105, 455, 1365, 3003, 5005, 6435, 6435],
    [1, 16, 120, 560, 1820, 4368, 8008, 11440, 12870],
];

// Places 9 to 16 of rows 9 to 16.
const RIGHT: [[u64; 8]; 8] = [
    [1, 0, 0, 0, 0, 0, 0, 0],
    [10, 1, 0, 0, 0, 0, 0, 0],
    [55, 11, 1, 0, 0, 0, 0, 0],
    [220, 66, 12, 1, 0, 0, 0, 0],
    [715, 286, 78, 13, 1, 0, 0, 0],
    [2002, 1001, 364, 91, 14, 1, 0, 0],
    [5005, 3003, 1365, 455, 105, 15, 1, 0],
    [11440, 8008, 4368, 1820, 560, 120, 16, 1],
];

fn entry(row: usize, place: usize) -> u64
    requires { (place ≤ row) × (row ≤ 16) }
    ensures { result ≡ entry_at row place }
{
    if place < 9 {
        LEFT[row][place]
    } else {
        RIGHT[row - 9][place - 9]
    }
}

// C, 0 past the row's end.
pub(crate) fn choose(n: usize, k: usize) -> u64
    requires { n ≤ 16 }
    ensures { result ≡ choose n k }
{
    if n < k { 0 } else { entry(n, k) }
}
