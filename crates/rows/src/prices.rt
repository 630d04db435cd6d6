ghost use Rattle.std.specs.Prelude.{◌≡◌, ℕ, ◌+◌, ◌-◌, ◌*◌, ◌/◌, ◌%◌, ◌^◌, ◌<◌, ◌≤◌, map, length, unsigned_abs};
ghost use Rattle.rows.specs.Planes.{PlaneLaws};
ghost use Rattle.rows.specs.Prices.{weight, price, pays, at_plane, row_at, remainders, ones, ones_below, planes, largest, Digits};

use crate::points::Padded;

/// The weight of a price row: the sum of its magnitudes.
pub fn weight(prices: &[i64]) -> u128
    ensures { result ≡ weight prices.now }
{
    prices.iter().map(|p| u128::from(p.unsigned_abs())).sum()
}

/// The ones of a price row: the one bits of its magnitudes.
pub fn ones(prices: &[i64]) -> u128
    ensures { result ≡ ones prices.now }
{
    let ones_of = |p: &i64| u128::from(p.unsigned_abs().count_ones());
    prices.iter().map(ones_of).sum()
}

/// The largest magnitude, 0 for an empty row.
fn largest_magnitude(prices: &[i64]) -> u64
    ensures { result ≡ largest prices.now }
{
    let larger = |most: u64, p: &i64| most.max(p.unsigned_abs());
    prices.iter().fold(0, larger)
}

/// The planes of a price row: the binary digits of its largest magnitude, none for a row of zeros.
pub fn planes(prices: &[i64]) -> u32
    ensures value { result ≡ planes prices.now }
    ensures digits { Digits (largest prices.now) result }
    ensures few { weight prices.now < 2 ^ 40 → result ≤ 40 }
{
    64 - largest_magnitude(prices).leading_zeros()
}

/// A magnitude without its digits below a plane.
fn quotient(magnitude: u64, plane: u32) -> u64
    ensures { result ≡ magnitude / 2 ^ plane }
{
    if plane < 64 { magnitude >> plane } else { 0 }
}

/// A magnitude's digits below a plane.
fn remainder(magnitude: u64, plane: u32) -> u64
    ensures { result ≡ magnitude % 2 ^ plane }
{
    if plane < 64 {
        magnitude % (1 << plane)
    } else {
        magnitude
    }
}

/// A price at a plane: the sign is kept, and the magnitude loses its digits below the plane.
/// Not an arithmetic shift, by which −1 would stay −1 at every plane.
pub fn price_at_plane(price: i64, plane: u32) -> i64
    ensures { result ≡ at_plane plane price }
{
    let m = quotient(price.unsigned_abs(), plane);
    if price < 0 {
        (-i128::from(m)) as i64
    } else {
        m as i64
    }
}

/// The row at a plane.
pub fn row_at_plane(prices: &Padded<i64>, plane: u32) -> Padded<i64>
    ensures is { result ≡ row_at plane prices.now }
    ensures laws { PlaneLaws plane prices.now }
{
    let mut row = *prices;
    for p in &mut row {
        *p = price_at_plane(*p, plane);
    }
    row
}

/// What the row at a plane leaves out: the sum of the remainders of the magnitudes by 2^plane.
pub fn remainders(prices: &[i64], plane: u32) -> u128
    ensures { result ≡ remainders plane prices.now }
{
    let rest_of = |p: &i64| u128::from(remainder(p.unsigned_abs(), plane));
    prices.iter().map(rest_of).sum()
}

/// The ones below a plane: the one bits of the magnitudes' remainders by 2^plane.
pub fn ones_below(prices: &[i64], plane: u32) -> u128
    ensures is { result ≡ ones_below plane prices.now }
    ensures few { result ≤ length prices.now * 64 }
{
    // not a sum of a chain: tried, and its bound, which a clause states, was not proved
    let mut low: u128 = 0;
    for p in prices {
        low += u128::from(remainder(p.unsigned_abs(), plane).count_ones());
    }
    low
}

/// What one coordinate adds to the price of a point.
fn pay(price: i64, mark: u8) -> i128
    ensures value { result ≡ pays price mark }
    ensures bound { unsigned_abs result ≤ 2 ^ 63 }
{
    if mark == 0 { 0 } else { i128::from(price) }
}

/// The price of a point: the sum of the prices at its ones, as far as both rows go.
pub fn price(prices: &[i64], point: &[u8]) -> i128
    ensures { result ≡ price prices.now point.now }
{
    // not a sum of a chain, which gives no bound for signed numbers
    let mut sum: i128 = 0;
    for (p, mark) in prices.iter().zip(point) {
        sum += pay(*p, *mark);
    }
    sum
}
