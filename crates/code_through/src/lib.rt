// Weights by which bytes at some points add up to a coefficient, or to the value at another point, of the polynomial through them.
#![tactic(auto)]

ghost use Rattle.std.specs.Prelude.{◌≡◌, List, ℕ, suc, ◌+◌, ◌-◌, ◌/◌, ◌^◌, ◌<◌, ◌≤◌, length, get_or, drop, take};
ghost use Rattle.field.specs.Field.{add, mul};
ghost use Rattle.code.specs.Code.{value, Apart};
ghost use Rattle.code_through.specs.Through.{marks};
ghost use Rattle.code_through.specs.Fits.{Attached};
ghost use Rattle.code_through.specs.Sums.{quot, differences, Master, Scales, Weight, Values};

use field::Element;
use octets::clear_at;

// From y, q0, q1, .. at j on, the coefficients of y + (X - x) q.
fn attach(x: u8, row: &mut [u8], j: usize)
    requires { j < length row.old }
    ensures { Attached x j row.old row.new }
{
    for i in j..row.len() - 1 {
        row[i] = Element(row[i]).fold(Element(x), Element(row[i + 1])).0;
    }
}

// From 0, .. 0, 1, the coefficients of the product of all X - x, x a point.
pub fn master(points: &[u8], row: &mut [u8])
    requires { (length row.old ≡ suc (length points.now)) × ((i : ℕ) → i < length points.now → get_or row.old i 0 ≡ 0)
        × (get_or row.old (length points.now) 0 ≡ 1) }
    ensures { Master points.now row.new }
{
    for j in (0..points.len()).rev() {
        attach(points[j], row, j);
    }
}

// One coefficient more, `top`: low has the values at the points of the coefficients from it on, ds those of their quotients by X - x.
fn deepen(points: &[u8], top: u8, low: &mut [u8], ds: &mut [u8])
    requires { (length low.old ≡ length points.now) × (length ds.old ≡ length points.now) }
    ensures { (j : ℕ) → j < length points.now →
        (get_or low.new j 0 ≡ add top (mul (get_or points.now j 0) (get_or low.old j 0)))
        × (get_or ds.new j 0 ≡ add (get_or low.new j 0) (mul (get_or points.now j 0) (get_or ds.old j 0))) }
{
    for j in 0..points.len() {
        let v = Element(top).fold(Element(points[j]), Element(low[j]));
        low[j] = v.0;
        ds[j] = v.fold(Element(points[j]), Element(ds[j])).0;
    }
}

// The values of the quotients at their own points. low is room to work in.
fn slopes(points: &[u8], m: &[u8], low: &mut [u8], ds: &mut [u8])
    requires { (length m.now ≡ suc (length points.now)) × (length low.old ≡ length points.now) × (length ds.old ≡ length points.now) }
    ensures { (j : ℕ) → j < length points.now
        → get_or ds.new j 0 ≡ value (quot (get_or points.now j 0) (drop 1 m.now)) (get_or points.now j 0) }
{
    low.fill(0);
    ds.fill(0);
    for i in (0..points.len()).rev() {
        deepen(points, m[i + 1], low, ds);
    }
}

// Each byte's inverse in its place.
fn invert_all(xs: &mut [u8])
    ensures { (j : ℕ) → j < length xs.old → 0 < get_or xs.old j 0 → mul (get_or xs.old j 0) (get_or xs.new j 0) ≡ 1 }
{
    for x in xs.iter_mut() {
        *x = Element(*x).inverse().0;
    }
}

// The factors that make the quotients 1 at their own points. low is room to work in.
pub fn scales(points: &[u8], m: &[u8], low: &mut [u8], ds: &mut [u8])
    requires { Master points.now m.now × Apart points.now × (length low.old ≡ length points.now) × (length ds.old ≡ length points.now) }
    ensures { Scales points.now m.now ds.new }
{
    slopes(points, m, low, ds);
    invert_all(ds);
}

// The weights of the next lower coefficient.
pub fn advance(points: &[u8], ds: &[u8], top: u8, ws: &mut [u8])
    requires { (length ds.now ≡ length points.now) × (length ws.old ≡ length points.now) }
    ensures { (j : ℕ) → j < length points.now → get_or ws.new j 0
        ≡ add (mul (get_or ds.now j 0) top) (mul (get_or points.now j 0) (get_or ws.old j 0)) }
{
    for j in 0..points.len() {
        ws[j] = Element(ds[j])
            .product(Element(top))
            .fold(Element(points[j]), Element(ws[j]))
            .0;
    }
}

// m has the coefficients of the product of all X - x, x a point.
pub fn expand(points: &[u8], m: &mut [u8])
    requires { length m.old ≡ suc (length points.now) }
    ensures { Master points.now m.new }
{
    let k = points.len();
    clear_at(m, 0, k);
    m[k] = Element::ONE.0;
    master(points, m);
}

// The same, and ds has its scales. low is room to work in.
pub fn prepare(points: &[u8], m: &mut [u8], low: &mut [u8], ds: &mut [u8])
    requires { Apart points.now × (length m.old ≡ suc (length points.now)) × (length low.old ≡ length points.now)
        × (length ds.old ≡ length points.now) }
    ensures { Master points.now m.new × Scales points.now m.new ds.new }
{
    expand(points, m);
    scales(points, m, low, ds);
}

// The value of a row at z.
pub fn value_at(row: &[u8], z: u8) -> u8
    ensures { result ≡ value row.now z }
{
    let mut v = Element::ZERO;
    for j in (0..row.len()).rev() {
        v = Element(row[j]).fold(Element(z), v);
    }
    v.0
}

// The product of all z - x, x a point.
fn product_at(points: &[u8], z: u8) -> u8
    ensures { result ≡ differences points.now z }
{
    let mut v = Element::ONE;
    for j in (0..points.len()).rev() {
        v = Element(z).add(Element(points[j])).product(v);
    }
    v.0
}

// z - x for each point x.
fn subtract(points: &[u8], z: u8, out: &mut [u8])
    requires { length out.old ≡ length points.now }
    ensures { (j : ℕ) → j < length points.now → get_or out.new j 0 ≡ add z (get_or points.now j 0) }
{
    for j in 0..points.len() {
        out[j] = Element(z).add(Element(points[j])).0;
    }
}

// 1 for a point's own weight at the point, which the product of all differences does not give.
fn own(x: u8, z: u8) -> Element
    ensures { (x ≡ z → result.0 ≡ 1) × ((x ≡ z → ⊥) → result.0 ≡ 0) }
{
    Element(u8::from(x == z))
}

// From the inverses of all z - x the weights: each times its scale and the product of all differences, `at`.
fn weigh(points: &[u8], ds: &[u8], z: u8, at: u8, ws: &mut [u8])
    requires { (length ds.now ≡ length points.now) × (length ws.old ≡ length points.now) }
    ensures { (j : ℕ) → j < length points.now → Weight (get_or points.now j 0) z (get_or ds.now j 0) at (get_or ws.old j 0) (get_or ws.new j 0) }
{
    for j in 0..points.len() {
        ws[j] = Element(ds[j])
            .product(Element(at).product(Element(ws[j])))
            .add(own(points[j], z))
            .0;
    }
}

// The weights with which the bytes at the points add up to the value at z.
pub fn weights_at(points: &[u8], ds: &[u8], z: u8, ws: &mut [u8])
    requires { (length ds.now ≡ length points.now) × (length ws.old ≡ length points.now) }
    ensures { (m : List ℕ) → Master points.now m → Scales points.now m ds.now
        → Values points.now m ds.now z ws.new }
{
    subtract(points, z, ws);
    invert_all(ws);
    weigh(points, ds, z, product_at(points, z), ws);
}

// The boards of a set, of n in all, in ascending order; how many there are.
// Stays: the list stands in its caller's frame (there is no heap), and its length comes back beside it.
pub fn members(set: u64, n: usize, out: &mut [u8]) -> usize
    requires { (n ≤ 64) × (n ≤ length out.old) }
    ensures { (result ≤ n) × (take result out.new ≡ marks 1 n set) }
{
    let mut rest = set;
    let mut m = 0;
    for i in 0..n {
        if rest % 2 == 1 {
            out[m] = (i + 1) as u8;
            m += 1;
        }
        rest /= 2;
    }
    m
}
