//! Lists of terms as one.

ghost use Rattle.std.specs.Prelude.{◌≡◌, ◌≤◌, ◌<◌, ◌+◌, ◌^◌, ◌++◌, ◌∷◌, [], ◌+ℤ◌, unsigned_abs, length};
ghost use Rattle.std.specs.List.{All};
ghost use Rattle.arrayvec.specs.ArrayVec.{array_vec_len};
ghost use Rattle.sym_expr.specs.TermsSeen.{multiple_of, multiples_of};
ghost use Rattle.sym_expr.specs.Sums.{merge, put_unless_zero};

use crate::forms::FormTerm;
use crate::places::PlaceId;
use arrayvec::ArrayVec;

/// Twice as many terms as a form has, for a sum that may be wide.
pub(crate) type Terms = ArrayVec<FormTerm, 32>;

fn added(a: i64, b: i64) -> i64
    requires left { unsigned_abs a ≤ 2 ^ 40 }
    requires right { unsigned_abs b ≤ 2 ^ 40 }
    ensures { result ≡ a +ℤ b }
{
    a + b
}

/// Appends a term, unless it is zero.
pub(crate) fn push_unless_zero(out: &mut Terms, place: PlaceId, coefficient: i64)
    requires { array_vec_len out.old < 32 }
    ensures made { multiples_of out.new.items ≡ multiples_of out.old.items ++ put_unless_zero place.0 coefficient [] }
    ensures room { array_vec_len out.new ≤ array_vec_len out.old + 1 }
{
    if coefficient != 0 {
        out.push(FormTerm { coefficient, place });
    }
}

/// Appends terms.
pub(crate) fn push_all<const N: usize>(out: &mut ArrayVec<FormTerm, N>, terms: &[FormTerm])
    requires { array_vec_len out.old + length terms.now ≤ N }
    ensures { out.new.items ≡ out.old.items ++ terms.now }
{
    for term in terms {
        out.push(*term);
    }
}

/// The terms of both lists, which ascend: those of one place are added up.
pub(crate) fn merged(p: &[FormTerm], q: &[FormTerm]) -> Terms
    requires few_left { length p.now ≤ 16 }
    requires few_right { length q.now ≤ 16 }
    requires left { All (λ t. unsigned_abs t.coefficient ≤ 2 ^ 40) p.now }
    requires right { All (λ t. unsigned_abs t.coefficient ≤ 2 ^ 40) q.now }
    ensures { multiples_of result.items ≡ merge (multiples_of p.now) (multiples_of q.now) }
{
    let mut out = Terms::new();
    let mut i = 0;
    let mut j = 0;
    'terms: while i < p.len() {
        if j >= q.len() {
            break;
        }
        if p[i].place.0 < q[j].place.0 {
            out.push(p[i]);
            i += 1;
        } else if q[j].place.0 < p[i].place.0 {
            out.push(q[j]);
            j += 1;
        } else {
            let sum = added(p[i].coefficient, q[j].coefficient);
            push_unless_zero(&mut out, p[i].place, sum);
            i += 1;
            j += 1;
        }
    }
    push_all(&mut out, &p[i..]);
    push_all(&mut out, &q[j..]);
    out
}
