use crate::alone::{OTHER, first, lay, retires};
use std::test::Fail;

// The words are LLVM's; the values are worked out from the manual's text.

/// A word; the contents of r3 and r4; whether its condition holds, and it doesn't run.
struct Row(u32, [u64; 2], bool);

/// td and tw with each bit of TO by itself, and with none, some and all.
#[rattlefmt::skip]
static REGISTERS: [Row; 145] = [
    Row(0x7e03_2088, [1, 2], true), // td 16,r3,r4
    Row(0x7e03_2088, [2, 1], false), // td 16,r3,r4
    Row(0x7e03_2088, [5, 5], false), // td 16,r3,r4
    Row(0x7e03_2088, [0xffff_ffff_ffff_ffff, 1], true), // td 16,r3,r4
    Row(0x7e03_2088, [1, 0xffff_ffff_ffff_ffff], false), // td 16,r3,r4
    Row(0x7e03_2088, [0x8000_0000_0000_0000, 0x7fff_ffff_ffff_ffff], true), // td 16,r3,r4
    Row(0x7e03_2088, [0x7fff_ffff_ffff_ffff, 0x8000_0000_0000_0000], false), // td 16,r3,r4
    Row(0x7e03_2088, [0x1_0000_0005, 5], false), // td 16,r3,r4
    Row(0x7e03_2088, [0xffff_ffff, 0x1_0000_0000], true), // td 16,r3,r4
    Row(0x7e03_2008, [1, 2], true), // tw 16,r3,r4
    Row(0x7e03_2008, [2, 1], false), // tw 16,r3,r4
    Row(0x7e03_2008, [5, 5], false), // tw 16,r3,r4
    Row(0x7e03_2008, [0xffff_ffff, 1], true), // tw 16,r3,r4
    Row(0x7e03_2008, [1, 0xffff_ffff], false), // tw 16,r3,r4
    Row(0x7e03_2008, [0x8000_0000, 0x7fff_ffff], true), // tw 16,r3,r4
    Row(0x7e03_2008, [0x7fff_ffff, 0x8000_0000], false), // tw 16,r3,r4
    Row(0x7e03_2008, [0x9_0000_0001, 2], true), // tw 16,r3,r4
    Row(0x7e03_2008, [2, 0xffff_ffff_0000_0001], false), // tw 16,r3,r4
    Row(0x7e03_2008, [0x3_0000_0005, 0xffff_ffff_0000_0005], false), // tw 16,r3,r4
    Row(0x7d03_2088, [1, 2], false), // td 8,r3,r4
    Row(0x7d03_2088, [2, 1], true), // td 8,r3,r4
    Row(0x7d03_2088, [5, 5], false), // td 8,r3,r4
    Row(0x7d03_2088, [0xffff_ffff_ffff_ffff, 1], false), // td 8,r3,r4
    Row(0x7d03_2088, [1, 0xffff_ffff_ffff_ffff], true), // td 8,r3,r4
    Row(0x7d03_2088, [0x8000_0000_0000_0000, 0x7fff_ffff_ffff_ffff], false), // td 8,r3,r4
    Row(0x7d03_2088, [0x7fff_ffff_ffff_ffff, 0x8000_0000_0000_0000], true), // td 8,r3,r4
    Row(0x7d03_2088, [0x1_0000_0005, 5], true), // td 8,r3,r4
    Row(0x7d03_2088, [0xffff_ffff, 0x1_0000_0000], false), // td 8,r3,r4
    Row(0x7d03_2008, [1, 2], false), // tw 8,r3,r4
    Row(0x7d03_2008, [2, 1], true), // tw 8,r3,r4
    Row(0x7d03_2008, [5, 5], false), // tw 8,r3,r4
    Row(0x7d03_2008, [0xffff_ffff, 1], false), // tw 8,r3,r4
    Row(0x7d03_2008, [1, 0xffff_ffff], true), // tw 8,r3,r4
    Row(0x7d03_2008, [0x8000_0000, 0x7fff_ffff], false), // tw 8,r3,r4
    Row(0x7d03_2008, [0x7fff_ffff, 0x8000_0000], true), // tw 8,r3,r4
    Row(0x7d03_2008, [0x9_0000_0001, 2], false), // tw 8,r3,r4
    Row(0x7d03_2008, [2, 0xffff_ffff_0000_0001], true), // tw 8,r3,r4
    Row(0x7d03_2008, [0x3_0000_0005, 0xffff_ffff_0000_0005], false), // tw 8,r3,r4
    Row(0x7c83_2088, [1, 2], false), // td 4,r3,r4
    Row(0x7c83_2088, [2, 1], false), // td 4,r3,r4
    Row(0x7c83_2088, [5, 5], true), // td 4,r3,r4
    Row(0x7c83_2088, [0xffff_ffff_ffff_ffff, 1], false), // td 4,r3,r4
    Row(0x7c83_2088, [1, 0xffff_ffff_ffff_ffff], false), // td 4,r3,r4
    Row(0x7c83_2088, [0x8000_0000_0000_0000, 0x7fff_ffff_ffff_ffff], false), // td 4,r3,r4
    Row(0x7c83_2088, [0x7fff_ffff_ffff_ffff, 0x8000_0000_0000_0000], false), // td 4,r3,r4
    Row(0x7c83_2088, [0x1_0000_0005, 5], false), // td 4,r3,r4
    Row(0x7c83_2088, [0xffff_ffff, 0x1_0000_0000], false), // td 4,r3,r4
    Row(0x7c83_2008, [1, 2], false), // tw 4,r3,r4
    Row(0x7c83_2008, [2, 1], false), // tw 4,r3,r4
    Row(0x7c83_2008, [5, 5], true), // tw 4,r3,r4
    Row(0x7c83_2008, [0xffff_ffff, 1], false), // tw 4,r3,r4
    Row(0x7c83_2008, [1, 0xffff_ffff], false), // tw 4,r3,r4
    Row(0x7c83_2008, [0x8000_0000, 0x7fff_ffff], false), // tw 4,r3,r4
    Row(0x7c83_2008, [0x7fff_ffff, 0x8000_0000], false), // tw 4,r3,r4
    Row(0x7c83_2008, [0x9_0000_0001, 2], false), // tw 4,r3,r4
    Row(0x7c83_2008, [2, 0xffff_ffff_0000_0001], false), // tw 4,r3,r4
    Row(0x7c83_2008, [0x3_0000_0005, 0xffff_ffff_0000_0005], true), // tw 4,r3,r4
    Row(0x7c43_2088, [1, 2], true), // td 2,r3,r4
    Row(0x7c43_2088, [2, 1], false), // td 2,r3,r4
    Row(0x7c43_2088, [5, 5], false), // td 2,r3,r4
    Row(0x7c43_2088, [0xffff_ffff_ffff_ffff, 1], false), // td 2,r3,r4
    Row(0x7c43_2088, [1, 0xffff_ffff_ffff_ffff], true), // td 2,r3,r4
    Row(0x7c43_2088, [0x8000_0000_0000_0000, 0x7fff_ffff_ffff_ffff], false), // td 2,r3,r4
    Row(0x7c43_2088, [0x7fff_ffff_ffff_ffff, 0x8000_0000_0000_0000], true), // td 2,r3,r4
    Row(0x7c43_2088, [0x1_0000_0005, 5], false), // td 2,r3,r4
    Row(0x7c43_2088, [0xffff_ffff, 0x1_0000_0000], true), // td 2,r3,r4
    Row(0x7c43_2008, [1, 2], true), // tw 2,r3,r4
    Row(0x7c43_2008, [2, 1], false), // tw 2,r3,r4
    Row(0x7c43_2008, [5, 5], false), // tw 2,r3,r4
    Row(0x7c43_2008, [0xffff_ffff, 1], false), // tw 2,r3,r4
    Row(0x7c43_2008, [1, 0xffff_ffff], true), // tw 2,r3,r4
    Row(0x7c43_2008, [0x8000_0000, 0x7fff_ffff], false), // tw 2,r3,r4
    Row(0x7c43_2008, [0x7fff_ffff, 0x8000_0000], true), // tw 2,r3,r4
    Row(0x7c43_2008, [0x9_0000_0001, 2], true), // tw 2,r3,r4
    Row(0x7c43_2008, [2, 0xffff_ffff_0000_0001], false), // tw 2,r3,r4
    Row(0x7c43_2008, [0x3_0000_0005, 0xffff_ffff_0000_0005], false), // tw 2,r3,r4
    Row(0x7c23_2088, [1, 2], false), // td 1,r3,r4
    Row(0x7c23_2088, [2, 1], true), // td 1,r3,r4
    Row(0x7c23_2088, [5, 5], false), // td 1,r3,r4
    Row(0x7c23_2088, [0xffff_ffff_ffff_ffff, 1], true), // td 1,r3,r4
    Row(0x7c23_2088, [1, 0xffff_ffff_ffff_ffff], false), // td 1,r3,r4
    Row(0x7c23_2088, [0x8000_0000_0000_0000, 0x7fff_ffff_ffff_ffff], true), // td 1,r3,r4
    Row(0x7c23_2088, [0x7fff_ffff_ffff_ffff, 0x8000_0000_0000_0000], false), // td 1,r3,r4
    Row(0x7c23_2088, [0x1_0000_0005, 5], true), // td 1,r3,r4
    Row(0x7c23_2088, [0xffff_ffff, 0x1_0000_0000], false), // td 1,r3,r4
    Row(0x7c23_2008, [1, 2], false), // tw 1,r3,r4
    Row(0x7c23_2008, [2, 1], true), // tw 1,r3,r4
    Row(0x7c23_2008, [5, 5], false), // tw 1,r3,r4
    Row(0x7c23_2008, [0xffff_ffff, 1], true), // tw 1,r3,r4
    Row(0x7c23_2008, [1, 0xffff_ffff], false), // tw 1,r3,r4
    Row(0x7c23_2008, [0x8000_0000, 0x7fff_ffff], true), // tw 1,r3,r4
    Row(0x7c23_2008, [0x7fff_ffff, 0x8000_0000], false), // tw 1,r3,r4
    Row(0x7c23_2008, [0x9_0000_0001, 2], false), // tw 1,r3,r4
    Row(0x7c23_2008, [2, 0xffff_ffff_0000_0001], true), // tw 1,r3,r4
    Row(0x7c23_2008, [0x3_0000_0005, 0xffff_ffff_0000_0005], false), // tw 1,r3,r4
    Row(0x7c03_2088, [1, 2], false), // td 0,r3,r4
    Row(0x7c03_2088, [2, 1], false), // td 0,r3,r4
    Row(0x7c03_2088, [5, 5], false), // td 0,r3,r4
    Row(0x7c03_2088, [0xffff_ffff_ffff_ffff, 1], false), // td 0,r3,r4
    Row(0x7c03_2088, [1, 0xffff_ffff_ffff_ffff], false), // td 0,r3,r4
    Row(0x7c03_2008, [1, 2], false), // tw 0,r3,r4
    Row(0x7c03_2008, [2, 1], false), // tw 0,r3,r4
    Row(0x7c03_2008, [5, 5], false), // tw 0,r3,r4
    Row(0x7c03_2008, [0xffff_ffff, 1], false), // tw 0,r3,r4
    Row(0x7c03_2008, [1, 0xffff_ffff], false), // tw 0,r3,r4
    Row(0x7fe3_2088, [1, 2], true), // td 31,r3,r4
    Row(0x7fe3_2088, [2, 1], true), // td 31,r3,r4
    Row(0x7fe3_2088, [5, 5], true), // td 31,r3,r4
    Row(0x7fe3_2088, [0xffff_ffff_ffff_ffff, 1], true), // td 31,r3,r4
    Row(0x7fe3_2088, [1, 0xffff_ffff_ffff_ffff], true), // td 31,r3,r4
    Row(0x7fe3_2008, [1, 2], true), // tw 31,r3,r4
    Row(0x7fe3_2008, [2, 1], true), // tw 31,r3,r4
    Row(0x7fe3_2008, [5, 5], true), // tw 31,r3,r4
    Row(0x7fe3_2008, [0xffff_ffff, 1], true), // tw 31,r3,r4
    Row(0x7fe3_2008, [1, 0xffff_ffff], true), // tw 31,r3,r4
    Row(0x7f03_2088, [1, 2], true), // td 24,r3,r4
    Row(0x7f03_2088, [2, 1], true), // td 24,r3,r4
    Row(0x7f03_2088, [5, 5], false), // td 24,r3,r4
    Row(0x7f03_2088, [0xffff_ffff_ffff_ffff, 1], true), // td 24,r3,r4
    Row(0x7f03_2088, [1, 0xffff_ffff_ffff_ffff], true), // td 24,r3,r4
    Row(0x7f03_2008, [1, 2], true), // tw 24,r3,r4
    Row(0x7f03_2008, [2, 1], true), // tw 24,r3,r4
    Row(0x7f03_2008, [5, 5], false), // tw 24,r3,r4
    Row(0x7f03_2008, [0xffff_ffff, 1], true), // tw 24,r3,r4
    Row(0x7f03_2008, [1, 0xffff_ffff], true), // tw 24,r3,r4
    Row(0x7c63_2088, [1, 2], true), // td 3,r3,r4
    Row(0x7c63_2088, [2, 1], true), // td 3,r3,r4
    Row(0x7c63_2088, [5, 5], false), // td 3,r3,r4
    Row(0x7c63_2088, [0xffff_ffff_ffff_ffff, 1], true), // td 3,r3,r4
    Row(0x7c63_2088, [1, 0xffff_ffff_ffff_ffff], true), // td 3,r3,r4
    Row(0x7c63_2008, [1, 2], true), // tw 3,r3,r4
    Row(0x7c63_2008, [2, 1], true), // tw 3,r3,r4
    Row(0x7c63_2008, [5, 5], false), // tw 3,r3,r4
    Row(0x7c63_2008, [0xffff_ffff, 1], true), // tw 3,r3,r4
    Row(0x7c63_2008, [1, 0xffff_ffff], true), // tw 3,r3,r4
    Row(0x7f63_2088, [1, 2], true), // td 27,r3,r4
    Row(0x7f63_2088, [2, 1], true), // td 27,r3,r4
    Row(0x7f63_2088, [5, 5], false), // td 27,r3,r4
    Row(0x7f63_2088, [0xffff_ffff_ffff_ffff, 1], true), // td 27,r3,r4
    Row(0x7f63_2088, [1, 0xffff_ffff_ffff_ffff], true), // td 27,r3,r4
    Row(0x7f63_2008, [1, 2], true), // tw 27,r3,r4
    Row(0x7f63_2008, [2, 1], true), // tw 27,r3,r4
    Row(0x7f63_2008, [5, 5], false), // tw 27,r3,r4
    Row(0x7f63_2008, [0xffff_ffff, 1], true), // tw 27,r3,r4
    Row(0x7f63_2008, [1, 0xffff_ffff], true), // tw 27,r3,r4
];

/// tdi and twi with each bit of TO by itself, and with none, some and all.
#[rattlefmt::skip]
static NUMBERS: [Row; 155] = [
    Row(0x0a03_0002, [1, OTHER], true), // tdi 16,r3,2
    Row(0x0a03_0001, [2, OTHER], false), // tdi 16,r3,1
    Row(0x0a03_0005, [5, OTHER], false), // tdi 16,r3,5
    Row(0x0a03_0001, [0xffff_ffff_ffff_ffff, OTHER], true), // tdi 16,r3,1
    Row(0x0a03_ffff, [1, OTHER], false), // tdi 16,r3,-1
    Row(0x0a03_8000, [0xffff_ffff_ffff_7fff, OTHER], true), // tdi 16,r3,-32768
    Row(0x0a03_8000, [0x7fff_ffff_ffff_ffff, OTHER], false), // tdi 16,r3,-32768
    Row(0x0a03_8000, [0xffff_ffff_ffff_8000, OTHER], false), // tdi 16,r3,-32768
    Row(0x0a03_0005, [0x1_0000_0005, OTHER], false), // tdi 16,r3,5
    Row(0x0a03_ffff, [0xffff_ffff, OTHER], false), // tdi 16,r3,-1
    Row(0x0e03_0002, [1, OTHER], true), // twi 16,r3,2
    Row(0x0e03_0001, [2, OTHER], false), // twi 16,r3,1
    Row(0x0e03_0005, [5, OTHER], false), // twi 16,r3,5
    Row(0x0e03_0001, [0xffff_ffff, OTHER], true), // twi 16,r3,1
    Row(0x0e03_ffff, [1, OTHER], false), // twi 16,r3,-1
    Row(0x0e03_8000, [0xffff_7fff, OTHER], true), // twi 16,r3,-32768
    Row(0x0e03_8000, [0x7fff_ffff, OTHER], false), // twi 16,r3,-32768
    Row(0x0e03_8000, [0x1234_5678_ffff_8000, OTHER], false), // twi 16,r3,-32768
    Row(0x0e03_0002, [0x9_0000_0001, OTHER], true), // twi 16,r3,2
    Row(0x0e03_0001, [0xffff_ffff_0000_0002, OTHER], false), // twi 16,r3,1
    Row(0x0e03_ffff, [0xffff_ffff, OTHER], false), // twi 16,r3,-1
    Row(0x0903_0002, [1, OTHER], false), // tdi 8,r3,2
    Row(0x0903_0001, [2, OTHER], true), // tdi 8,r3,1
    Row(0x0903_0005, [5, OTHER], false), // tdi 8,r3,5
    Row(0x0903_0001, [0xffff_ffff_ffff_ffff, OTHER], false), // tdi 8,r3,1
    Row(0x0903_ffff, [1, OTHER], true), // tdi 8,r3,-1
    Row(0x0903_8000, [0xffff_ffff_ffff_7fff, OTHER], false), // tdi 8,r3,-32768
    Row(0x0903_8000, [0x7fff_ffff_ffff_ffff, OTHER], true), // tdi 8,r3,-32768
    Row(0x0903_8000, [0xffff_ffff_ffff_8000, OTHER], false), // tdi 8,r3,-32768
    Row(0x0903_0005, [0x1_0000_0005, OTHER], true), // tdi 8,r3,5
    Row(0x0903_ffff, [0xffff_ffff, OTHER], true), // tdi 8,r3,-1
    Row(0x0d03_0002, [1, OTHER], false), // twi 8,r3,2
    Row(0x0d03_0001, [2, OTHER], true), // twi 8,r3,1
    Row(0x0d03_0005, [5, OTHER], false), // twi 8,r3,5
    Row(0x0d03_0001, [0xffff_ffff, OTHER], false), // twi 8,r3,1
    Row(0x0d03_ffff, [1, OTHER], true), // twi 8,r3,-1
    Row(0x0d03_8000, [0xffff_7fff, OTHER], false), // twi 8,r3,-32768
    Row(0x0d03_8000, [0x7fff_ffff, OTHER], true), // twi 8,r3,-32768
    Row(0x0d03_8000, [0x1234_5678_ffff_8000, OTHER], false), // twi 8,r3,-32768
    Row(0x0d03_0002, [0x9_0000_0001, OTHER], false), // twi 8,r3,2
    Row(0x0d03_0001, [0xffff_ffff_0000_0002, OTHER], true), // twi 8,r3,1
    Row(0x0d03_ffff, [0xffff_ffff, OTHER], false), // twi 8,r3,-1
    Row(0x0883_0002, [1, OTHER], false), // tdi 4,r3,2
    Row(0x0883_0001, [2, OTHER], false), // tdi 4,r3,1
    Row(0x0883_0005, [5, OTHER], true), // tdi 4,r3,5
    Row(0x0883_0001, [0xffff_ffff_ffff_ffff, OTHER], false), // tdi 4,r3,1
    Row(0x0883_ffff, [1, OTHER], false), // tdi 4,r3,-1
    Row(0x0883_8000, [0xffff_ffff_ffff_7fff, OTHER], false), // tdi 4,r3,-32768
    Row(0x0883_8000, [0x7fff_ffff_ffff_ffff, OTHER], false), // tdi 4,r3,-32768
    Row(0x0883_8000, [0xffff_ffff_ffff_8000, OTHER], true), // tdi 4,r3,-32768
    Row(0x0883_0005, [0x1_0000_0005, OTHER], false), // tdi 4,r3,5
    Row(0x0883_ffff, [0xffff_ffff, OTHER], false), // tdi 4,r3,-1
    Row(0x0c83_0002, [1, OTHER], false), // twi 4,r3,2
    Row(0x0c83_0001, [2, OTHER], false), // twi 4,r3,1
    Row(0x0c83_0005, [5, OTHER], true), // twi 4,r3,5
    Row(0x0c83_0001, [0xffff_ffff, OTHER], false), // twi 4,r3,1
    Row(0x0c83_ffff, [1, OTHER], false), // twi 4,r3,-1
    Row(0x0c83_8000, [0xffff_7fff, OTHER], false), // twi 4,r3,-32768
    Row(0x0c83_8000, [0x7fff_ffff, OTHER], false), // twi 4,r3,-32768
    Row(0x0c83_8000, [0x1234_5678_ffff_8000, OTHER], true), // twi 4,r3,-32768
    Row(0x0c83_0002, [0x9_0000_0001, OTHER], false), // twi 4,r3,2
    Row(0x0c83_0001, [0xffff_ffff_0000_0002, OTHER], false), // twi 4,r3,1
    Row(0x0c83_ffff, [0xffff_ffff, OTHER], true), // twi 4,r3,-1
    Row(0x0843_0002, [1, OTHER], true), // tdi 2,r3,2
    Row(0x0843_0001, [2, OTHER], false), // tdi 2,r3,1
    Row(0x0843_0005, [5, OTHER], false), // tdi 2,r3,5
    Row(0x0843_0001, [0xffff_ffff_ffff_ffff, OTHER], false), // tdi 2,r3,1
    Row(0x0843_ffff, [1, OTHER], true), // tdi 2,r3,-1
    Row(0x0843_8000, [0xffff_ffff_ffff_7fff, OTHER], true), // tdi 2,r3,-32768
    Row(0x0843_8000, [0x7fff_ffff_ffff_ffff, OTHER], true), // tdi 2,r3,-32768
    Row(0x0843_8000, [0xffff_ffff_ffff_8000, OTHER], false), // tdi 2,r3,-32768
    Row(0x0843_0005, [0x1_0000_0005, OTHER], false), // tdi 2,r3,5
    Row(0x0843_ffff, [0xffff_ffff, OTHER], true), // tdi 2,r3,-1
    Row(0x0c43_0002, [1, OTHER], true), // twi 2,r3,2
    Row(0x0c43_0001, [2, OTHER], false), // twi 2,r3,1
    Row(0x0c43_0005, [5, OTHER], false), // twi 2,r3,5
    Row(0x0c43_0001, [0xffff_ffff, OTHER], false), // twi 2,r3,1
    Row(0x0c43_ffff, [1, OTHER], true), // twi 2,r3,-1
    Row(0x0c43_8000, [0xffff_7fff, OTHER], true), // twi 2,r3,-32768
    Row(0x0c43_8000, [0x7fff_ffff, OTHER], true), // twi 2,r3,-32768
    Row(0x0c43_8000, [0x1234_5678_ffff_8000, OTHER], false), // twi 2,r3,-32768
    Row(0x0c43_0002, [0x9_0000_0001, OTHER], true), // twi 2,r3,2
    Row(0x0c43_0001, [0xffff_ffff_0000_0002, OTHER], false), // twi 2,r3,1
    Row(0x0c43_ffff, [0xffff_ffff, OTHER], false), // twi 2,r3,-1
    Row(0x0823_0002, [1, OTHER], false), // tdi 1,r3,2
    Row(0x0823_0001, [2, OTHER], true), // tdi 1,r3,1
    Row(0x0823_0005, [5, OTHER], false), // tdi 1,r3,5
    Row(0x0823_0001, [0xffff_ffff_ffff_ffff, OTHER], true), // tdi 1,r3,1
    Row(0x0823_ffff, [1, OTHER], false), // tdi 1,r3,-1
    Row(0x0823_8000, [0xffff_ffff_ffff_7fff, OTHER], false), // tdi 1,r3,-32768
    Row(0x0823_8000, [0x7fff_ffff_ffff_ffff, OTHER], false), // tdi 1,r3,-32768
    Row(0x0823_8000, [0xffff_ffff_ffff_8000, OTHER], false), // tdi 1,r3,-32768
    Row(0x0823_0005, [0x1_0000_0005, OTHER], true), // tdi 1,r3,5
    Row(0x0823_ffff, [0xffff_ffff, OTHER], false), // tdi 1,r3,-1
    Row(0x0c23_0002, [1, OTHER], false), // twi 1,r3,2
    Row(0x0c23_0001, [2, OTHER], true), // twi 1,r3,1
    Row(0x0c23_0005, [5, OTHER], false), // twi 1,r3,5
    Row(0x0c23_0001, [0xffff_ffff, OTHER], true), // twi 1,r3,1
    Row(0x0c23_ffff, [1, OTHER], false), // twi 1,r3,-1
    Row(0x0c23_8000, [0xffff_7fff, OTHER], false), // twi 1,r3,-32768
    Row(0x0c23_8000, [0x7fff_ffff, OTHER], false), // twi 1,r3,-32768
    Row(0x0c23_8000, [0x1234_5678_ffff_8000, OTHER], false), // twi 1,r3,-32768
    Row(0x0c23_0002, [0x9_0000_0001, OTHER], false), // twi 1,r3,2
    Row(0x0c23_0001, [0xffff_ffff_0000_0002, OTHER], true), // twi 1,r3,1
    Row(0x0c23_ffff, [0xffff_ffff, OTHER], false), // twi 1,r3,-1
    Row(0x0803_0002, [1, OTHER], false), // tdi 0,r3,2
    Row(0x0803_0001, [2, OTHER], false), // tdi 0,r3,1
    Row(0x0803_0005, [5, OTHER], false), // tdi 0,r3,5
    Row(0x0803_0001, [0xffff_ffff_ffff_ffff, OTHER], false), // tdi 0,r3,1
    Row(0x0803_ffff, [1, OTHER], false), // tdi 0,r3,-1
    Row(0x0c03_0002, [1, OTHER], false), // twi 0,r3,2
    Row(0x0c03_0001, [2, OTHER], false), // twi 0,r3,1
    Row(0x0c03_0005, [5, OTHER], false), // twi 0,r3,5
    Row(0x0c03_0001, [0xffff_ffff, OTHER], false), // twi 0,r3,1
    Row(0x0c03_ffff, [1, OTHER], false), // twi 0,r3,-1
    Row(0x0be3_0002, [1, OTHER], true), // tdi 31,r3,2
    Row(0x0be3_0001, [2, OTHER], true), // tdi 31,r3,1
    Row(0x0be3_0005, [5, OTHER], true), // tdi 31,r3,5
    Row(0x0be3_0001, [0xffff_ffff_ffff_ffff, OTHER], true), // tdi 31,r3,1
    Row(0x0be3_ffff, [1, OTHER], true), // tdi 31,r3,-1
    Row(0x0fe3_0002, [1, OTHER], true), // twi 31,r3,2
    Row(0x0fe3_0001, [2, OTHER], true), // twi 31,r3,1
    Row(0x0fe3_0005, [5, OTHER], true), // twi 31,r3,5
    Row(0x0fe3_0001, [0xffff_ffff, OTHER], true), // twi 31,r3,1
    Row(0x0fe3_ffff, [1, OTHER], true), // twi 31,r3,-1
    Row(0x0a83_0002, [1, OTHER], true), // tdi 20,r3,2
    Row(0x0a83_0001, [2, OTHER], false), // tdi 20,r3,1
    Row(0x0a83_0005, [5, OTHER], true), // tdi 20,r3,5
    Row(0x0a83_0001, [0xffff_ffff_ffff_ffff, OTHER], true), // tdi 20,r3,1
    Row(0x0a83_ffff, [1, OTHER], false), // tdi 20,r3,-1
    Row(0x0e83_0002, [1, OTHER], true), // twi 20,r3,2
    Row(0x0e83_0001, [2, OTHER], false), // twi 20,r3,1
    Row(0x0e83_0005, [5, OTHER], true), // twi 20,r3,5
    Row(0x0e83_0001, [0xffff_ffff, OTHER], true), // twi 20,r3,1
    Row(0x0e83_ffff, [1, OTHER], false), // twi 20,r3,-1
    Row(0x08a3_0002, [1, OTHER], false), // tdi 5,r3,2
    Row(0x08a3_0001, [2, OTHER], true), // tdi 5,r3,1
    Row(0x08a3_0005, [5, OTHER], true), // tdi 5,r3,5
    Row(0x08a3_0001, [0xffff_ffff_ffff_ffff, OTHER], true), // tdi 5,r3,1
    Row(0x08a3_ffff, [1, OTHER], false), // tdi 5,r3,-1
    Row(0x0ca3_0002, [1, OTHER], false), // twi 5,r3,2
    Row(0x0ca3_0001, [2, OTHER], true), // twi 5,r3,1
    Row(0x0ca3_0005, [5, OTHER], true), // twi 5,r3,5
    Row(0x0ca3_0001, [0xffff_ffff, OTHER], true), // twi 5,r3,1
    Row(0x0ca3_ffff, [1, OTHER], false), // twi 5,r3,-1
    Row(0x0b83_0002, [1, OTHER], true), // tdi 28,r3,2
    Row(0x0b83_0001, [2, OTHER], true), // tdi 28,r3,1
    Row(0x0b83_0005, [5, OTHER], true), // tdi 28,r3,5
    Row(0x0b83_0001, [0xffff_ffff_ffff_ffff, OTHER], true), // tdi 28,r3,1
    Row(0x0b83_ffff, [1, OTHER], true), // tdi 28,r3,-1
    Row(0x0f83_0002, [1, OTHER], true), // twi 28,r3,2
    Row(0x0f83_0001, [2, OTHER], true), // twi 28,r3,1
    Row(0x0f83_0005, [5, OTHER], true), // twi 28,r3,5
    Row(0x0f83_0001, [0xffff_ffff, OTHER], true), // twi 28,r3,1
    Row(0x0f83_ffff, [1, OTHER], true), // twi 28,r3,-1
];

#[test]
fn traps_hold_where_they_should(rt: HostRuntime) -> Result<(), Fail> {
    let mut state = first(rt.alloc())?;
    for rows in [REGISTERS.as_slice(), NUMBERS.as_slice()] {
        for Row(word, [third, fourth], holds) in rows {
            lay(&mut state, *word, 0, 0x1000);
            state.regs.gpr[3] = *third;
            state.regs.gpr[4] = *fourth;
            let next = if *holds { 0x700 } else { 0x1004 };
            assert_eq!(rt;
                [retires(&mut state), true],
                [!*holds, true],
                "{word:08x} {third:x} {fourth:x}"
            );
            let regs = &state.regs;
            assert_eq!(rt;
                [regs.cia, regs.xer, regs.gpr[5]],
                [next, 0, OTHER],
                "{word:08x}"
            );
            assert_eq!(rt; [regs.gpr[3], regs.gpr[4]], [*third, *fourth], "{word:08x}");
            assert_eq!(rt; [regs.cr, 0], [0, 0], "CR of {word:08x}");
        }
    }
    Ok(())
}
