use mw_syntax::{LineFault, Refusal, What, parse_line};

/// A line that is refused, with the place and what is refused.
struct Row(&'static [u8], u32, What);

#[rattlefmt::skip]
static REFUSED: [Row; 32] = [
    Row(b"frob r3", 1, What::Name),
    Row(b"li r3", 6, What::Operand),
    Row(b"li r3 # x", 10, What::Operand),
    Row(b"li r3,5,6", 8, What::Operand),
    Row(b"li r3 5", 7, What::Operand),
    Row(b"lwz r3,8 r4", 10, What::Operand),
    Row(b"lwz r3,8(r4", 12, What::Operand),
    Row(b"x: y: nop", 4, What::Name),
    Row(b"5 nop", 1, What::Name),
    Row(b": x", 1, What::Name),
    Row(b"x: 5", 4, What::Name),
    Row(b"x : .", 5, What::Name),
    Row(b"li @", 4, What::Token),
    Row(b"frob r3 @", 9, What::Token),
    Row(b"nop\r", 4, What::Token),
    Row(b".org", 5, What::Operand),
    Row(b".org 1 2", 8, What::Operand),
    Row(b".byte", 6, What::Operand),
    Row(b".byte 1,", 9, What::Operand),
    Row(b".byte 1,,2", 9, What::Operand),
    Row(b".quad 1 2", 9, What::Operand),
    Row(b".word 1", 1, What::Name),
    Row(b".big", 1, What::Name),
    Row(b"b 1+", 5, What::Operand),
    Row(b"b 1+x", 5, What::Operand),
    Row(b"b -x", 4, What::Operand),
    Row(b"b x+1+1", 6, What::Operand),
    Row(b"addi r3,r4,-x", 13, What::Operand),
    Row(b"mr r3+1,r4", 6, What::Operand),
    Row(b"nop 1", 5, What::Operand),
    Row(b"ADD r3,r4,r5", 1, What::Name),
    Row(b"subi r3,r4,1", 1, What::Name),
];

#[test]
fn lines_are_refused_at_their_place(rt: HostRuntime) {
    for Row(line, column, what) in &REFUSED {
        assert!(rt; line.len() < 1000);
        let fault = parse_line(rt.alloc(), line).err();
        let want = LineFault::Refused(Refusal {
            column: *column,
            what: *what,
        });
        assert_eq!(rt; fault, Some(want), "{line:?}");
    }
}

#[rattlefmt::skip]
static TAKEN: [&[u8]; 20] = [
    b"",
    b" \t# any \x80 @ bytes",
    b"x:",
    b"nop:nop",
    b"li r3,5",
    b"li\tr31 , -0x8 # -8",
    b"lwz r3,8(r4)",
    b"lwz 3,label-4(4)",
    b"plwz r3,8(r4),0",
    b"b .",
    b"b .+8",
    b"bc 12,2,loop",
    b"add. r3,r4,r5",
    b"addo. r3,r4,r5",
    b"blr",
    b"bctr",
    b"mr r32,r03",
    b".org x+0x10",
    b".byte 1,-2,x+3,.",
    b"table: .be64 0xffffffffffffffff",
];

#[test]
fn lines_are_taken(rt: HostRuntime) {
    for line in &TAKEN {
        assert!(rt; line.len() < 1000);
        assert!(rt; parse_line(rt.alloc(), line).is_ok(), "{line:?}");
    }
}
