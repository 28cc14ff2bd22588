// A key's equations as they are lent to the work on rows: one for each column, and one for each row of H.
ghost use Rattle.std.specs.Prelude.{◌^◌, ◌≤◌};
ghost use Rattle.field.specs.Level.{level_at};
ghost use Rattle.row.specs.Lent.{LentKey, LentTarget};

// All but the target: H, m rows of n elements, and x, at a level; d digits name each of the n columns.
#[derive(Clone, Copy)]
pub struct Matrix<'a> {
    pub n: usize,
    pub m: usize,
    pub d: usize,
    pub level: usize,
    pub h: &'a [u16],
    pub x: &'a [u16],
    pub ghost lent: { LentKey (level_at level) n m h.now x.now },
    pub ghost columns: { n ≤ 2 ^ d },
}

// The same with y, the target.
#[derive(Clone, Copy)]
pub struct Equations<'a> {
    pub matrix: Matrix<'a>,
    pub y: &'a [u16],
    pub ghost target: { LentTarget (level_at matrix.level) matrix.m y.now },
}
