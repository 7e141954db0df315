//! The matrix of a movie or a track.

ghost use Rattle.mp4_codec.specs.ExactTest.{by_test, field_tests};
ghost use Rattle.std.specs.Prelude.{OnOk, ◌≡◌};
ghost use Rattle.mp4_codec.specs.Bytes.{Appends};
ghost use Rattle.mp4_codec.specs.Cause.{Reads};
ghost use Rattle.mp4_leaf.specs.Matrix.{matrix_at, matrix, unity, IsInRangeMatrix};

use mp4_codec::{ExactEq, Field, Fields, InRange, Plain, Put, put_i32};

/// Where the picture is placed: a 3 by 3 matrix, row by row (ISO/IEC 14496-12, 6.2.2).
///
/// `u`, `v` and `w` are of 2.30 bits, the others of 16.16; all are signed. The default changes nothing.
#[derive(Clone, Copy, Debug, PartialEq, Eq)]
pub struct Matrix {
    pub a: i32,
    pub b: i32,
    pub u: i32,
    pub c: i32,
    pub d: i32,
    pub v: i32,
    pub x: i32,
    pub y: i32,
    pub w: i32,
}

impl ExactEq for Matrix {
    ghost exact = { by_test (Prim.hlevel field_tests) };
}

impl Default for Matrix {
    ghost is_default = { λ m. m ≡ unity };

    fn default() -> Self {
        Matrix {
            a: 0x0001_0000,
            b: 0,
            u: 0,
            c: 0,
            d: 0x0001_0000,
            v: 0,
            x: 0,
            y: 0,
            w: 0x4000_0000,
        }
    }
}

impl Plain for Matrix {}

impl InRange for Matrix {
    ghost IsInRange = { IsInRangeMatrix };

    fn in_range(&self) {
        self.a.in_range();
        self.b.in_range();
        self.u.in_range();
        self.c.in_range();
        self.d.in_range();
        self.v.in_range();
        self.x.in_range();
        self.y.in_range();
        self.w.in_range();
    }
}

/// The next matrix of a payload.
#[tactic(auto, unfolding(crate::specs::Matrix::matrix_at))]
pub(crate) fn read_matrix(fields: &mut Fields) -> Field<Matrix>
    ensures { Reads (λ m. (m, fields.new)) result (matrix_at fields.old) }
{
    let a = fields.i32()?;
    let b = fields.i32()?;
    let u = fields.i32()?;
    let c = fields.i32()?;
    let d = fields.i32()?;
    let v = fields.i32()?;
    let x = fields.i32()?;
    let y = fields.i32()?;
    let w = fields.i32()?;
    Ok(Matrix {
        a,
        b,
        u,
        c,
        d,
        v,
        x,
        y,
        w,
    })
}

/// Adds the 36 bytes of a matrix.
pub(crate) fn put_matrix(out: &mut Vec<u8>, m: &Matrix) -> Put
    ensures { OnOk result (Appends out.old.items out.new.items (matrix m.now)) }
{
    put_i32(out, m.a)?;
    put_i32(out, m.b)?;
    put_i32(out, m.u)?;
    put_i32(out, m.c)?;
    put_i32(out, m.d)?;
    put_i32(out, m.v)?;
    put_i32(out, m.x)?;
    put_i32(out, m.y)?;
    put_i32(out, m.w)?;
    Ok(())
}
