// Curves as path data: how long the text is, and the text itself in lent bytes. Each call that puts answers where its text ends.
#![tactic(auto)]

ghost use Rattle.std.specs.Prelude.{◌≡◌, true, ◌+◌, ◌*◌, ◌≤◌, ◌<◌, length};
ghost use Rattle.float.specs.Number.{finite};
ghost use Rattle.plane.specs.Range.{point_finite};
ghost use Rattle.faults.specs.Tests.{curve_at, curve_finite};
ghost use Rattle.text.specs.Put.{Put};
ghost use Rattle.path.specs.Text.{number_text, point_text, curve_text, curves_text, closing_text, path_text};
ghost use Rattle.path.specs.Range.{within, point_within, curve_within};
ghost use Rattle.path_text.specs.Writable.{Writable};

use faults::curve_at;
use form::Form;
use plane::{Curve, Point};
use text::put_bytes;
use thousandths::written;

// ---- how long

// How long a number is, with the blank before it.
fn number_length(x: f64) -> usize
    requires { (finite x ≡ true) × (within x ≡ true) }
    ensures { (result ≡ length (number_text x)) × (result ≤ 15) }
{
    1 + figures::length_of(written(x))
}

// How long a point is.
fn point_length(p: Point) -> usize
    requires { (point_finite p ≡ true) × (point_within p ≡ true) }
    ensures { (result ≡ length (point_text p)) × (result ≤ 30) }
{
    number_length(p.x) + number_length(p.y)
}

// How long a curve is.
fn curve_length(c: Curve) -> usize
    requires { (curve_finite c ≡ true) × (curve_within c ≡ true) }
    ensures { (result ≡ length (curve_text c)) × (result ≤ 92) }
{
    2 + (point_length(c.cp1) + (point_length(c.cp2) + point_length(c.end)))
}

// How long the first n curves are.
fn curves_length(form: Form, curves: &[f64], n: usize) -> usize
    requires { Writable form curves.now n }
    ensures { (result ≡ length (curves_text n (curve_at form curves.now))) × (result ≤ 92 * n) }
{
    let mut total = 0;
    for i in 0..n {
        total += curve_length(curve_at(form, curves, i));
    }
    total
}

// How long the end of a ring is.
fn closing_length(ring: bool) -> usize
    ensures { (result ≡ length (closing_text ring)) × (result ≤ 2) }
{
    if ring {
        return 2;
    }
    0
}

// How long the path data of the first n curves is.
pub fn path_length(form: Form, curves: &[f64], n: usize, ring: bool) -> usize
    requires { (0 < n) × Writable form curves.now n }
    ensures { result ≡ length (path_text ring n (curve_at form curves.now)) }
{
    let first = curve_at(form, curves, 0);
    1 + point_length(first.start) + (curves_length(form, curves, n) + closing_length(ring))
}

// ---- the text

// Puts a number behind a blank.
fn put_number(out: &mut [u8], at: usize, x: f64) -> usize
    requires { (finite x ≡ true) × ((within x ≡ true) × (at + length (number_text x) ≤ length out.old)) }
    ensures { Put out.old at (number_text x) out.new result }
{
    let number = put_bytes(out, at, b" ");
    figures::put(out, number, written(x))
}

// Puts a point.
fn put_point(out: &mut [u8], at: usize, p: Point) -> usize
    requires { (point_finite p ≡ true) × ((point_within p ≡ true) × (at + length (point_text p) ≤ length out.old)) }
    ensures { Put out.old at (point_text p) out.new result }
{
    let y = put_number(out, at, p.x);
    put_number(out, y, p.y)
}

// Puts a curve.
fn put_curve(out: &mut [u8], at: usize, c: Curve) -> usize
    requires { (curve_finite c ≡ true) × ((curve_within c ≡ true) × (at + length (curve_text c) ≤ length out.old)) }
    ensures { Put out.old at (curve_text c) out.new result }
{
    let cp1 = put_bytes(out, at, b" C");
    let cp2 = put_point(out, cp1, c.cp1);
    let end = put_point(out, cp2, c.cp2);
    put_point(out, end, c.end)
}

// Puts the first n curves.
fn put_curves(out: &mut [u8], at: usize, form: Form, curves: &[f64], n: usize) -> usize
    requires { Writable form curves.now n × (at + length (curves_text n (curve_at form curves.now)) ≤ length out.old) }
    ensures { Put out.old at (curves_text n (curve_at form curves.now)) out.new result }
{
    let mut end = at;
    for i in 0..n {
        end = put_curve(out, end, curve_at(form, curves, i));
    }
    end
}

// Puts the end of a ring.
fn put_closing(out: &mut [u8], at: usize, ring: bool) -> usize
    requires { at + length (closing_text ring) ≤ length out.old }
    ensures { Put out.old at (closing_text ring) out.new result }
{
    if ring {
        return put_bytes(out, at, b" Z");
    }
    at
}

// Puts the path data of the first n curves into the first bytes.
pub fn put_path(out: &mut [u8], form: Form, curves: &[f64], n: usize, ring: bool) -> usize
    requires { (0 < n) × (Writable form curves.now n × (length (path_text ring n (curve_at form curves.now)) ≤ length out.old)) }
    ensures { Put out.old 0 (path_text ring n (curve_at form curves.now)) out.new result }
{
    let first = curve_at(form, curves, 0);
    let start = put_bytes(out, 0, b"M");
    let drawn = put_point(out, start, first.start);
    let closing = put_curves(out, drawn, form, curves, n);
    put_closing(out, closing, ring)
}
