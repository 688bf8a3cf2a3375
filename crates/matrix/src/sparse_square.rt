// The matrix of blocks: its product with a vector.
ghost use Rattle.std.specs.Prelude.{◌≡◌, ◌+◌, ◌*◌, ◌≤◌, ◌<◌, length};
ghost use Rattle.vectors.specs.Number.{plus_zero, plus_one};
ghost use Rattle.vectors.specs.Vec4.{vec4_add, vec4_scale};
ghost use Rattle.vectors.specs.Mat4.{mat4_times_vec4};
ghost use Rattle.matrix.specs.Parts.{put, Apart};
ghost use Rattle.matrix.specs.Rows.{row4, rows4, cut_rows, block16, blocks16, cut_blocks, flat4};
ghost use Rattle.matrix.specs.Layout.{row_length, row_start, matrix_numbers};
ghost use Rattle.matrix.specs.SparseSquare.{add_products, row_times, matrix_rows, mult_vec, times_from_first, NoMinusZero};

use crate::area::Work;
use crate::layout;
use crate::rows::Row;
use crate::vertices::Vertices;
use vectors::mat4::Mat4;
use vectors::vec4::Vec4;

// The block a times v. The +0 that the definition's sums begin with is left out: it only makes +0 of
// a sum that is -0.
#[tactic(auto, unfolding(crate::specs::SparseSquare::times_from_first))]
fn block_product(a: Mat4, v: Vec4) -> Vec4
    ensures { result ≡ times_from_first a v }
{
    a.c0 * v.x + a.c1 * v.y + a.c2 * v.z + a.c3 * v.w
}

// s and the product of the block m with the row x. As s has no -0, its sums with -0 and with +0 are
// the same. The product by alpha, which is 1, is the product.
fn add_product(m: &[f64; 16], x: &[f64; 4], s: Vec4) -> Vec4
    requires { NoMinusZero s }
    ensures value { result ≡ vec4_add s (vec4_scale (mat4_times_vec4 (block16 m.now 0) (row4 x.now 0)) plus_one) }
    ensures sum_no_minus_zero { NoMinusZero result }
{
    s + block_product(Mat4::load(m, 0), Vec4::load(x, 0))
}

// y and the products of up to two blocks before the diagonal with as many rows. It is compiled in place and has no
// loop: with a fold over the pairs a whole product takes an eighth more instructions.
#[inline(always)]
fn add_before(blocks: &[[f64; 16]], rows: &[[f64; 4]], y: Vec4) -> Vec4
    requires no_minus_zero { NoMinusZero y }
    requires as_many { length blocks.now ≡ length rows.now }
    requires at_most_two { length rows.now ≤ 2 }
    ensures value { result ≡ add_products plus_one y (cut_blocks blocks.now) (cut_rows rows.now) }
    ensures sum_no_minus_zero { NoMinusZero result }
{
    match (blocks, rows) {
        ([a], [u]) => add_product(a, u, y),
        ([a, b], [u, v]) => add_product(b, v, add_product(a, u, y)),
        _ => y,
    }
}

// The same of those after it. Two functions, so that an edit can make one of the two wrong.
#[inline(always)]
fn add_after(blocks: &[[f64; 16]], rows: &[[f64; 4]], y: Vec4) -> Vec4
    requires no_minus_zero { NoMinusZero y }
    requires as_many { length blocks.now ≡ length rows.now }
    requires at_most_two { length rows.now ≤ 2 }
    ensures value { result ≡ add_products plus_one y (cut_blocks blocks.now) (cut_rows rows.now) }
    ensures sum_no_minus_zero { NoMinusZero result }
{
    match (blocks, rows) {
        ([c], [u]) => add_product(c, u, y),
        ([c, d], [u, v]) => add_product(d, v, add_product(c, u, y)),
        _ => y,
    }
}

// The blocks of row i times the vector x of n rows; `old` is what the product was before. By 0 it may
// be -0, and not once it is added to +0.
#[tactic(auto, using(crate::proofs::RowPlaces::before_le, crate::proofs::RowPlaces::after_le), unfolding(crate::specs::Layout::row_length))]
fn row_product(row: &[[f64; 16]], x: &[[f64; 4]], n: Vertices, i: usize, old: Vec4) -> Vec4
    requires i_lt_n { i < n.count }
    requires row_long { length row.now ≡ row_length n.count i }
    requires x_long { length x.now ≡ n.count }
    ensures { result ≡ row_times n.count i plus_zero plus_one (cut_blocks row.now) (cut_rows x.now) old }
{
    let low = layout::count_before(i);
    let high = layout::count_after(n, i);
    let s0 = Vec4::default() + old * 0.0;
    let s1 = add_before(&row[..low], &x[i - low..i], s0);
    let s2 = add_after(&row[low..low + high], &x[i + 1..i + 1 + high], s1);
    add_product(&row[low + high], &x[i], s2)
}

// Row i of the matrix that stands at the beginning of the area, times the vector at p, from the old
// product at ap. The row begins at `at`.
#[tactic(auto, using(crate::proofs::RowPlaces::row_fits))]
fn row_times(work: &Work, n: Vertices, i: usize, at: usize, p: usize, ap: usize) -> Vec4
    requires i_lt_n { i < n.count }
    requires at_value { at ≡ 16 * row_start n.count i }
    requires p_in_work { p + 4 * n.count ≤ length work.now }
    requires ap_in_work { ap + 4 * n.count ≤ length work.now }
    ensures { result ≡ row_times n.count i plus_zero plus_one (blocks16 work.now (16 * row_start n.count i) (row_length n.count i)) (rows4 work.now p n.count) (row4 work.now (ap + 4 * i)) }
{
    let e = at + 16 * layout::row_length(n, i);
    let pe = p + 4 * n.count;
    let (row, _) = work[at..e].as_chunks::<16>();
    let (x, _) = work[p..pe].as_chunks::<4>();
    row_product(row, x, n, i, Vec4::load(work, ap + 4 * i))
}

// The matrix times the vector at p, stored at ap: places, since it is of any two vectors, as the Rust's is.
// The place of a row is carried along: to work it out takes a product for each row.
#[tactic(auto, using(crate::proofs::RowPlaces::row_fits))]
pub fn mult_vec(work: &mut Work, n: Vertices, p: usize, ap: usize)
    requires matrix_numbers_le_ap { matrix_numbers ≤ ap }
    requires p_in_work { p + 4 * n.count ≤ length work.old }
    requires ap_in_work { ap + 4 * n.count ≤ length work.old }
    requires apart { Apart ap (4 * n.count) p (4 * n.count) }
    ensures { work.new ≡ put work.old ap (flat4 (mult_vec n.count plus_zero plus_one (matrix_rows work.old n.count) (rows4 work.old p n.count) (rows4 work.old ap n.count))) }
{
    let mut at = 0;
    for i in 0..n.count {
        row_times(work, n, i, at, p, ap).store(work, ap + 4 * i);
        at += 16 * layout::row_length(n, i);
    }
}
