// What C and Rust call: each public call of the libraries, by its name behind `wes_`. A slice is a pointer and a length there. The answer is a number, as `border` has it, and the
// values go through references. bindings/c/wesalondo.h declares these functions, and says in plain words what each does.
#![tactic(auto)]

ghost use Rattle.std.specs.Prelude.{◌≡◌, []};
ghost use Rattle.std.specs.Float.{binary64};
ghost use Rattle.root.specs.Root.{sqrt};
ghost use Rattle.plane.specs.Plane.{at};
ghost use Rattle.marks.specs.Marks.{mark_at};
ghost use Rattle.marks.specs.Block.{block_size};
ghost use Rattle.ring.specs.declared.Outline.TheVariants as outlines;
ghost use Rattle.form.specs.declared.Form.TheVariants as forms;
ghost use Rattle.tangents.specs.declared.Cutting.TheVariants as cuttings;
ghost use Rattle.parts.specs.declared.Heading.TheVariants as headings;
ghost use Rattle.faults.specs.Tests.{curve_of};
ghost use Rattle.fit.specs.Fit.{fit_of, cubic_of};
ghost use Rattle.flat_fit.specs.Flat.{flat_of};
ghost use Rattle.tally.specs.Tally.{joined_blocks};
ghost use Rattle.checker.specs.Check.{place, check_of};
ghost use Rattle.bezier.specs.Calls.{basis_call, casteljau4_call, casteljau3_call, casteljau2_call, coefficients_call, subdivide4_call, refine_call};
ghost use Rattle.nearest.specs.Nearest.{nearest_call};
ghost use Rattle.lines.specs.Handed.{hand_over};
ghost use Rattle.reader.specs.Reader.{read_of};
ghost use Rattle.writer.specs.Writer.{write_of};
ghost use Rattle.outline.specs.Outline.{listing_of};
ghost use Rattle.verdict.specs.Verdict.{judgement_of};
ghost use Rattle.saving.specs.Saving.{saved_of};
ghost use Rattle.packer.specs.Packer.{pack_of};
ghost use Rattle.unpacker.specs.Unpacker.{unpack_of};
ghost use Rattle.salvaging.specs.Salvage.{sizes, salvage_of};
ghost use Rattle.export.specs.Export.{export_of};
ghost use Rattle.import.specs.Import.{import_of};
ghost use Rattle.border.specs.Crossing.{outline_for, form_for, crossed, number_crossed, point_crossed, coefficients_crossed, parts, halves_crossed, nearest, nearest_crossed, verdict_crossed, found, drawn};
ghost use Rattle.wesalondo.specs.Left.{fit_left, left_by, flat_left, left_by_flat, on_points, read_left, left_by_reader, bytes_left, left_by_writer, left_with_text, salvage_left, left_by_salvage, drawn_left, left_by_import};

use plane::Point;

// ---- fits

// The joined fit of an open outline.
#[unsafe(no_mangle)]
pub extern "C" fn wes_fit_joined(
    marks: &[f64],
    tolerance: f64,
    curves: &mut [f64],
    firsts: &mut [u32],
    worsts: &mut [u32],
    params: &mut [f64],
    made: &mut usize,
) -> u32
    ensures { fit_left (crossed result made.new) curves.new firsts.new worsts.new params.new ≡ left_by (fit_of cuttings.Joined marks.now tolerance curves.old firsts.old worsts.old params.old) }
{
    let answer = fit::fit_joined(marks, tolerance, curves, firsts, worsts, params);
    border::put_count(answer, made)
}

// The joined fit of a closed outline.
#[unsafe(no_mangle)]
pub extern "C" fn wes_fit_ring(
    marks: &[f64],
    tolerance: f64,
    curves: &mut [f64],
    firsts: &mut [u32],
    worsts: &mut [u32],
    params: &mut [f64],
    made: &mut usize,
) -> u32
    ensures { fit_left (crossed result made.new) curves.new firsts.new worsts.new params.new ≡ left_by (fit_of cuttings.Ring marks.now tolerance curves.old firsts.old worsts.old params.old) }
{
    let answer = fit::fit_ring(marks, tolerance, curves, firsts, worsts, params);
    border::put_count(answer, made)
}

// The fit as the source cuts an outline.
#[unsafe(no_mangle)]
pub extern "C" fn wes_fit_curve(
    marks: &[f64],
    tolerance: f64,
    curves: &mut [f64],
    firsts: &mut [u32],
    worsts: &mut [u32],
    params: &mut [f64],
    made: &mut usize,
) -> u32
    ensures { fit_left (crossed result made.new) curves.new firsts.new worsts.new params.new ≡ left_by (fit_of cuttings.Source marks.now tolerance curves.old firsts.old worsts.old params.old) }
{
    let answer = fit::fit_curve(marks, tolerance, curves, firsts, worsts, params);
    border::put_count(answer, made)
}

// The fit as the source cuts a loop.
#[unsafe(no_mangle)]
pub extern "C" fn wes_fit_curve_loop(
    marks: &[f64],
    tolerance: f64,
    curves: &mut [f64],
    firsts: &mut [u32],
    worsts: &mut [u32],
    params: &mut [f64],
    made: &mut usize,
) -> u32
    ensures { fit_left (crossed result made.new) curves.new firsts.new worsts.new params.new ≡ left_by (fit_of cuttings.Loop marks.now tolerance curves.old firsts.old worsts.old params.old) }
{
    let answer = fit::fit_curve_loop(marks, tolerance, curves, firsts, worsts, params);
    border::put_count(answer, made)
}

// The direct fit, with the tangents at both ends given.
#[unsafe(no_mangle)]
pub extern "C" fn wes_fit_curve_cubic(
    marks: &[f64],
    start_x: f64,
    start_y: f64,
    end_x: f64,
    end_y: f64,
    tolerance: f64,
    curves: &mut [f64],
    firsts: &mut [u32],
    worsts: &mut [u32],
    params: &mut [f64],
    made: &mut usize,
) -> u32
    ensures { fit_left (crossed result made.new) curves.new firsts.new worsts.new params.new ≡ left_by (cubic_of marks.now (at start_x start_y) (at end_x end_y) tolerance curves.old firsts.old worsts.old params.old) }
{
    let start = Point {
        x: start_x,
        y: start_y,
    };
    let end = Point { x: end_x, y: end_y };
    let answer = fit::fit_curve_cubic(marks, start, end, tolerance, curves, firsts, worsts, params);
    border::put_count(answer, made)
}

// ---- fits of the second engine, which never calls itself and is lent room for its open parts

// The direct fit.
#[unsafe(no_mangle)]
pub extern "C" fn wes_fit_curve_cubic_flat(
    marks: &[f64],
    start_x: f64,
    start_y: f64,
    end_x: f64,
    end_y: f64,
    tolerance: f64,
    curves: &mut [f64],
    firsts: &mut [u32],
    worsts: &mut [u32],
    params: &mut [f64],
    open: &mut [u32],
    made: &mut usize,
) -> u32
    ensures { flat_left (crossed result made.new) curves.new firsts.new worsts.new params.new «open».new ≡ left_by_flat (flat_of (headings.Given (record { end = at end_x end_y; start = at start_x start_y })) marks.now tolerance curves.old firsts.old worsts.old params.old «open».old) }
{
    let start = Point {
        x: start_x,
        y: start_y,
    };
    let end = Point { x: end_x, y: end_y };
    let answer = flat_fit::fit_curve_cubic_flat(
        marks, start, end, tolerance, curves, firsts, worsts, params, open,
    );
    border::put_count(answer, made)
}

// The joined fit of an open outline.
#[unsafe(no_mangle)]
pub extern "C" fn wes_fit_joined_flat(
    marks: &[f64],
    tolerance: f64,
    curves: &mut [f64],
    firsts: &mut [u32],
    worsts: &mut [u32],
    params: &mut [f64],
    open: &mut [u32],
    made: &mut usize,
) -> u32
    ensures { flat_left (crossed result made.new) curves.new firsts.new worsts.new params.new «open».new ≡ left_by_flat (flat_of (headings.By cuttings.Joined) marks.now tolerance curves.old firsts.old worsts.old params.old «open».old) }
{
    let answer = flat_fit::fit_joined_flat(marks, tolerance, curves, firsts, worsts, params, open);
    border::put_count(answer, made)
}

// The joined fit of a closed outline.
#[unsafe(no_mangle)]
pub extern "C" fn wes_fit_ring_flat(
    marks: &[f64],
    tolerance: f64,
    curves: &mut [f64],
    firsts: &mut [u32],
    worsts: &mut [u32],
    params: &mut [f64],
    open: &mut [u32],
    made: &mut usize,
) -> u32
    ensures { flat_left (crossed result made.new) curves.new firsts.new worsts.new params.new «open».new ≡ left_by_flat (flat_of (headings.By cuttings.Ring) marks.now tolerance curves.old firsts.old worsts.old params.old «open».old) }
{
    let answer = flat_fit::fit_ring_flat(marks, tolerance, curves, firsts, worsts, params, open);
    border::put_count(answer, made)
}

// ---- checkers

// A list with worst marks, over an open outline.
#[unsafe(no_mangle)]
pub extern "C" fn wes_check_worst(
    marks: &[f64],
    tolerance: f64,
    count: usize,
    curves: &[f64],
    firsts: &[u32],
    worsts: &[u32],
    params: &[f64],
    curve: &mut usize,
    mark: &mut usize,
) -> u32
    ensures { crossed result (place curve.new mark.new) ≡ verdict_crossed (check_of outlines.Open forms.Nine marks.now tolerance «count» curves.now firsts.now worsts.now params.now) }
{
    let answer = checker::check_worst(marks, tolerance, count, curves, firsts, worsts, params);
    border::put_checked(answer, curve, mark)
}

// The same over a closed outline.
#[unsafe(no_mangle)]
pub extern "C" fn wes_check_worst_ring(
    marks: &[f64],
    tolerance: f64,
    count: usize,
    curves: &[f64],
    firsts: &[u32],
    worsts: &[u32],
    params: &[f64],
    curve: &mut usize,
    mark: &mut usize,
) -> u32
    ensures { crossed result (place curve.new mark.new) ≡ verdict_crossed (check_of outlines.Closed forms.Nine marks.now tolerance «count» curves.now firsts.now worsts.now params.now) }
{
    let answer = checker::check_worst_ring(marks, tolerance, count, curves, firsts, worsts, params);
    border::put_checked(answer, curve, mark)
}

// A list of eight numbers a curve, over an open outline.
#[unsafe(no_mangle)]
pub extern "C" fn wes_check_list(
    marks: &[f64],
    tolerance: f64,
    count: usize,
    curves: &[f64],
    firsts: &[u32],
    params: &[f64],
    curve: &mut usize,
    mark: &mut usize,
) -> u32
    ensures { crossed result (place curve.new mark.new) ≡ verdict_crossed (check_of outlines.Open forms.Eight marks.now tolerance «count» curves.now firsts.now [] params.now) }
{
    let answer = checker::check_list(marks, tolerance, count, curves, firsts, params);
    border::put_checked(answer, curve, mark)
}

// The same over a closed outline.
#[unsafe(no_mangle)]
pub extern "C" fn wes_check_ring(
    marks: &[f64],
    tolerance: f64,
    count: usize,
    curves: &[f64],
    firsts: &[u32],
    params: &[f64],
    curve: &mut usize,
    mark: &mut usize,
) -> u32
    ensures { crossed result (place curve.new mark.new) ≡ verdict_crossed (check_of outlines.Closed forms.Eight marks.now tolerance «count» curves.now firsts.now [] params.now) }
{
    let answer = checker::check_ring(marks, tolerance, count, curves, firsts, params);
    border::put_checked(answer, curve, mark)
}

// Any of the four.
#[unsafe(no_mangle)]
pub extern "C" fn wes_check(
    ring: bool,
    nine: bool,
    marks: &[f64],
    tolerance: f64,
    count: usize,
    curves: &[f64],
    firsts: &[u32],
    worsts: &[u32],
    params: &[f64],
    curve: &mut usize,
    mark: &mut usize,
) -> u32
    ensures { crossed result (place curve.new mark.new) ≡ verdict_crossed (check_of (outline_for ring) (form_for nine) marks.now tolerance «count» curves.now firsts.now worsts.now params.now) }
{
    let outline = border::outline_for(ring);
    let form = border::form_for(nine);
    let answer = checker::check(
        outline, form, marks, tolerance, count, curves, firsts, worsts, params,
    );
    border::put_checked(answer, curve, mark)
}

// ---- one curve

// A point of a curve.
#[unsafe(no_mangle)]
pub extern "C" fn wes_basis(curve: &[f64; 8], t: f64, point: &mut [f64; 2]) -> u32
    ensures { crossed result point.new ≡ point_crossed (on_points (basis_call t) (curve_of curve.now)) }
{
    let c = faults::curve_of(curve);
    let answer = bezier::basis(t, c.start, c.cp1, c.cp2, c.end);
    border::put_point(answer, point)
}

// The same point by other roundings.
#[unsafe(no_mangle)]
pub extern "C" fn wes_de_casteljau4(curve: &[f64; 8], t: f64, point: &mut [f64; 2]) -> u32
    ensures { crossed result point.new ≡ point_crossed (on_points (casteljau4_call t) (curve_of curve.now)) }
{
    let c = faults::curve_of(curve);
    let answer = bezier::de_casteljau4(t, c.start, c.cp1, c.cp2, c.end);
    border::put_point(answer, point)
}

// A point of a quadratic curve.
#[unsafe(no_mangle)]
pub extern "C" fn wes_de_casteljau3(curve: &[f64; 6], t: f64, point: &mut [f64; 2]) -> u32
    ensures { crossed result point.new ≡ point_crossed (casteljau3_call t (mark_at curve.now 0) (mark_at curve.now 1) (mark_at curve.now 2)) }
{
    let w1 = marks::mark_at(curve, 0);
    let w2 = marks::mark_at(curve, 1);
    let w3 = marks::mark_at(curve, 2);
    let answer = bezier::de_casteljau3(t, w1, w2, w3);
    border::put_point(answer, point)
}

// A point of a line.
#[unsafe(no_mangle)]
pub extern "C" fn wes_de_casteljau2(curve: &[f64; 4], t: f64, point: &mut [f64; 2]) -> u32
    ensures { crossed result point.new ≡ point_crossed (casteljau2_call t (mark_at curve.now 0) (mark_at curve.now 1)) }
{
    let w1 = marks::mark_at(curve, 0);
    let w2 = marks::mark_at(curve, 1);
    let answer = bezier::de_casteljau2(t, w1, w2);
    border::put_point(answer, point)
}

// A curve's coefficients in x or in y.
#[unsafe(no_mangle)]
pub extern "C" fn wes_bezier_coefficients(
    curve: &[f64; 8],
    dimension: usize,
    coefficients: &mut [f64; 4],
) -> u32
    ensures { crossed result coefficients.new ≡ coefficients_crossed (on_points (coefficients_call dimension) (curve_of curve.now)) }
{
    let c = faults::curve_of(curve);
    let answer = bezier::bezier_coefficients(dimension, c.start, c.cp1, c.cp2, c.end);
    border::put_coefficients(answer, coefficients)
}

// The two parts of a curve.
#[unsafe(no_mangle)]
pub extern "C" fn wes_subdivide4(
    curve: &[f64; 8],
    t: f64,
    left: &mut [f64; 8],
    right: &mut [f64; 8],
) -> u32
    ensures { crossed result (parts left.new right.new) ≡ halves_crossed (on_points (subdivide4_call t) (curve_of curve.now)) }
{
    let c = faults::curve_of(curve);
    let answer = bezier::subdivide4(t, c.start, c.cp1, c.cp2, c.end);
    border::put_halves(answer, left, right)
}

// The nearest point of a curve.
#[unsafe(no_mangle)]
pub extern "C" fn wes_nearest_point_on_curve(
    curve: &[f64; 8],
    x: f64,
    y: f64,
    t: &mut f64,
    distance_sq: &mut f64,
) -> u32
    ensures { crossed result (nearest t.new distance_sq.new) ≡ nearest_crossed (nearest_call (curve_of curve.now) (at x y)) }
{
    let c = faults::curve_of(curve);
    let answer = nearest::nearest_point_on_curve(c, Point { x, y });
    border::put_nearest(answer, t, distance_sq)
}

// The same from an estimate, by Newton's rounds.
#[unsafe(no_mangle)]
pub extern "C" fn wes_nearest_point_on_curve_newton_raphson_with_estimate(
    curve: &[f64; 8],
    x: f64,
    y: f64,
    estimated_t: f64,
    num_iterations: usize,
    t: &mut f64,
) -> u32
    ensures { crossed result t.new ≡ number_crossed (refine_call (curve_of curve.now) (at x y) estimated_t num_iterations) }
{
    let c = faults::curve_of(curve);
    let answer = bezier::nearest_point_on_curve_newton_raphson_with_estimate(
        c,
        Point { x, y },
        estimated_t,
        num_iterations,
    );
    border::put_refined(answer, t)
}

// ---- house files

// A file taken apart.
#[unsafe(no_mangle)]
pub extern "C" fn wes_read_file(
    file: &[u8],
    tolerance: &mut u64,
    marks: &mut [u64],
    firsts: &mut [u32],
    worsts: &mut [u32],
    curves: &mut [u64],
    params: &mut [u64],
    mark_count: &mut usize,
    curve_count: &mut usize,
    nine: &mut bool,
) -> u32
    ensures { read_left (crossed result (found nine.new tolerance.new mark_count.new curve_count.new)) marks.new firsts.new worsts.new curves.new params.new ≡ left_by_reader (read_of file.now marks.old firsts.old worsts.old curves.old params.old) }
{
    let answer = reader::read_file(file, marks, firsts, worsts, curves, params);
    border::put_read(answer, tolerance, mark_count, curve_count, nine)
}

// A file put together.
#[unsafe(no_mangle)]
pub extern "C" fn wes_write_file(
    nine: bool,
    tolerance: &u64,
    marks: &[u64],
    count: usize,
    firsts: &[u32],
    worsts: &[u32],
    curves: &[u64],
    params: &[u64],
    out: &mut [u8],
    size: &mut usize,
) -> u32
    ensures { bytes_left (crossed result size.new) out.new ≡ left_by_writer (write_of (form_for nine) tolerance.now marks.now count firsts.now worsts.now curves.now params.now out.old) }
{
    let form = border::form_for(nine);
    let bits = *tolerance;
    let answer = writer::write_file(
        form, bits, marks, count, firsts, worsts, curves, params, out,
    );
    border::put_count(answer, size)
}

// The listing of a file.
#[unsafe(no_mangle)]
pub extern "C" fn wes_list_outline(file: &[u8], out: &mut [u8], size: &mut usize) -> u32
    ensures { bytes_left (crossed result size.new) out.new ≡ left_with_text (hand_over (listing_of file.now) out.old) }
{
    let answer = outline::list_outline(file, out);
    border::put_count(answer, size)
}

// The judge's line of a file.
#[unsafe(no_mangle)]
pub extern "C" fn wes_judge_file(file: &[u8], out: &mut [u8], size: &mut usize) -> u32
    ensures { bytes_left (crossed result size.new) out.new ≡ left_with_text (hand_over (judgement_of file.now) out.old) }
{
    let answer = verdict::judge_file(file, out);
    border::put_count(answer, size)
}

// A file with the curves of its joined fit.
#[unsafe(no_mangle)]
pub extern "C" fn wes_save_fit(file: &[u8], out: &mut [u8], size: &mut usize) -> u32
    ensures { bytes_left (crossed result size.new) out.new ≡ left_with_text (hand_over (saved_of file.now) out.old) }
{
    let answer = saving::save_fit(file, out);
    border::put_count(answer, size)
}

// A file, packed: each joint once.
#[unsafe(no_mangle)]
pub extern "C" fn wes_pack_file(file: &[u8], out: &mut [u8], size: &mut usize) -> u32
    ensures { bytes_left (crossed result size.new) out.new ≡ left_with_text (pack_of file.now out.old) }
{
    let answer = packer::pack_file(file, out);
    border::put_count(answer, size)
}

// A packed file, unpacked.
#[unsafe(no_mangle)]
pub extern "C" fn wes_unpack_file(file: &[u8], out: &mut [u8], size: &mut usize) -> u32
    ensures { bytes_left (crossed result size.new) out.new ≡ left_with_text (unpack_of file.now out.old) }
{
    let answer = unpacker::unpack_file(file, out);
    border::put_count(answer, size)
}

// A file, cleaned, and the list of the marks dropped.
#[unsafe(no_mangle)]
pub extern "C" fn wes_salvage(
    file: &[u8],
    out: &mut [u8],
    report: &mut [u8],
    size: &mut usize,
    report_size: &mut usize,
) -> u32
    ensures { salvage_left (crossed result (sizes size.new report_size.new)) out.new report.new ≡ left_by_salvage (salvage_of file.now out.old report.old) }
{
    let answer = salvaging::salvage(file, out, report);
    border::put_salvaged(answer, size, report_size)
}

// ---- path data

// Curves as path data.
#[unsafe(no_mangle)]
pub extern "C" fn wes_export_path(
    nine: bool,
    curves: &[f64],
    count: usize,
    ring: bool,
    out: &mut [u8],
    size: &mut usize,
) -> u32
    ensures { bytes_left (crossed result size.new) out.new ≡ left_with_text (export_of (form_for nine) curves.now «count» ring out.old) }
{
    let form = border::form_for(nine);
    let answer = export::export_path(form, curves, count, ring, out);
    border::put_count(answer, size)
}

// Path data as curves.
#[unsafe(no_mangle)]
pub extern "C" fn wes_import_path(
    text: &[u8],
    curves: &mut [f64],
    count: &mut usize,
    closed: &mut bool,
) -> u32
    ensures { drawn_left (crossed result (drawn «count».new closed.new)) curves.new ≡ left_by_import (import_of text.now curves.old) }
{
    let answer = import::import_path(text, curves);
    border::put_imported(answer, count, closed)
}

// ---- numbers

// How many marks a block has.
#[unsafe(no_mangle)]
pub extern "C" fn wes_max_points_to_fit(n: usize) -> usize
    ensures { result ≡ block_size n }
{
    marks::max_points_to_fit(n)
}

// How many blocks a joined fit has.
#[unsafe(no_mangle)]
pub extern "C" fn wes_joined_blocks(n: usize) -> usize
    ensures { result ≡ joined_blocks n }
{
    tally::joined_blocks(n)
}

// A square root.
#[unsafe(no_mangle)]
pub extern "C" fn wes_sqrt(x: f64) -> f64
    ensures { result ≡ sqrt binary64 x }
{
    root::sqrt(x)
}
