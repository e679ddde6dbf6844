// Cases on standard input, one a line, and one line of answer for each on standard output: so that the calls can be tried on any numbers, and
// beside another implementation. Words are separated by one blank; an f64 is its bits in 16 upper-case hex digits, a whole number is decimal.
//
//     sqrt X
//     basis T C8, de_casteljau4 T C8, coefficients D C8, subdivide4 T C8     C8: eight numbers, start, controls, end
//     de_casteljau3 T P6, de_casteljau2 T P4                                 three points; two points
//     refine C8 PX PY T R                                                    Newton refinement, R rounds
//     nearest C8 PX PY
//     direct TOL SX SY EX EY X0 Y0 X1 Y1 ..
//     source TOL X0 Y0 .., loop TOL X0 Y0 .., joined TOL X0 Y0 .., ring TOL X0 Y0 ..
//     direct_flat, joined_flat, ring_flat                                    as direct, joined and ring, by the second engine
//     check TOL N X0 Y0 .. K F0 C8 F1 C8 .. T0 .. T(N-1)
//     check_ring TOL N X0 Y0 .. K F0 C8 F1 C8 .. T0 .. TN                    a ring has a parameter more than it has marks
//     check_worst TOL N X0 Y0 .. K F0 W0 C9 F1 W1 C9 .. T0 .. T(N-1)         C9: eight numbers and the largest distance, which is of mark W
//     check_worst_ring TOL N X0 Y0 .. K F0 W0 C9 F1 W1 C9 .. T0 .. TN
//     distance C8 PX PY T                                                    how far the list checker finds a mark from its curve
//     blocks N                                                               into how many blocks a joined fit cuts N marks
//     size N                                                                 of how many marks a block is, where an outline has N
//     export OPEN K C8 .., export RING K C8 ..                               K curves as path data
//     import TEXT                                                            path data, all behind the first blank
//     pack HEX, unpack HEX                                                   a house file, two lower-case digits a byte
//     salvage HEX                                                            the same, to be cleaned
//
// A line has at most 4,600,000 bytes, 21,000 marks (and curves beside them), or 23,625 curves of path data: more are BAD, and a text that draws more is refused for room, as is a file
// that has more than 1,512,000 bytes when it is packed, unpacked or cleaned, and one whose list of dropped marks has more than 100,000.
//
// An accepted case answers 0 and its numbers: the root; x y; a b c d; both halves; t; t and squared distance; for a fit K, then for each curve its
// first mark, its worst mark and nine numbers, then every parameter; the distance; the count; the size; the path data; K, OPEN or CLOSED and eight
// numbers a curve; the other file; the cleaned file and the list, both as bytes. A refused case answers its number alone. A checker's case answers 0, `FAULT A 3 0` (kind, curve, mark), or the refusal. A line
// that is none of these answers BAD, and the next is taken.
#![tactic(auto)]

mod cursor;
mod dispatch;
mod input;
mod kind;
mod listing;
mod outline;
mod packing;
mod paths;
mod print;
mod room;
mod single;

fn main(rt: HostRuntime) {
    input::run(rt.stdin());
}
