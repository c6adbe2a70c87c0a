use crate::alone::{OTHER, first, lay, retires};
use crate::logic::LOGIC;
use crate::rotates::{ROTATES, SHIFTS};
use crate::sums::SUMS;
use crate::units::{PERMUTES, PRODUCTS, QUOTIENTS};
use std::test::Fail;

/// A word and the one behind it; its address; the contents of r3, r4, r5 and XER before it; and those of r5, XER and
/// field 0 of CR behind it. CR is 0 before each.
pub struct Row(
    pub u32,
    pub u32,
    pub u32,
    pub [u64; 4],
    pub u64,
    pub u64,
    pub u32,
);

#[test]
fn each_row_in_each_form(rt: HostRuntime) -> Result<(), Fail> {
    let mut state = first(rt.alloc())?;
    for rows in [
        SUMS.as_slice(),
        LOGIC.as_slice(),
        ROTATES.as_slice(),
        SHIFTS.as_slice(),
        PERMUTES.as_slice(),
        PRODUCTS.as_slice(),
        QUOTIENTS.as_slice(),
    ] {
        for row in rows {
            let [third, fourth, fifth, xer] = row.3;
            lay(&mut state, row.0, row.1, row.2);
            state.regs.gpr[3] = third;
            state.regs.gpr[4] = fourth;
            state.regs.gpr[5] = fifth;
            state.regs.xer = xer;
            assert!(rt; retires(&mut state), "{:08x}", row.0);
            assert_eq!(rt; state.regs.gpr[5], row.4, "r5 of {:08x}", row.0);
            assert_eq!(rt; state.regs.xer, row.5, "XER of {:08x}", row.0);
            assert_eq!(rt;
                [state.regs.cr, 16],
                [row.6 << 28, 16],
                "CR of {:08x}",
                row.0
            );
            assert_eq!(rt; state.regs.gpr[0], OTHER, "r0 of {:08x}", row.0);
        }
    }
    Ok(())
}
