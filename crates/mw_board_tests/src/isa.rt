use mw_alu::AluOp;
use mw_isa::{
    AluRow, BranchRow, Carry, Ending, Event, Events, FieldRow, Inputs, Operation, PickRow,
    Privilege, Regs, SystemRow, SystemWhat, TrapRow, Vector, operation_at,
};
use mw_tables::row_at;
use std::test::Fail;

/// An arithmetic row that takes no carry and writes nothing beside its result.
fn alu(op: AluOp, inputs: Inputs) -> Operation {
    Operation::Alu(AluRow {
        op,
        inputs,
        carry: Carry::NoCarry,
        ending: Ending::Plain,
    })
}

/// A row of the system.
fn system(what: SystemWhat, privilege: Privilege) -> Operation {
    Operation::System(SystemRow { what, privilege })
}

#[test]
fn the_start_is_the_boards(rt: HostRuntime) {
    // SF, HV, ME and LE are the bits 0, 3, 51 and 63 of MSR, counted from the left.
    assert_eq!(rt; Regs::new().msr, (1 << 63) | (1 << 60) | (1 << 12) | 1);
}

#[test]
fn operations_go_by_the_table(rt: HostRuntime) {
    for (row, name) in [
        (0, "addi"),
        (1, "addis"),
        (10, "ori"),
        (17, "b"),
        (43, "add"),
        (6, "cmpi"),
        (18, "bc"),
        (114, "tw"),
        (116, "isel"),
        (196, "sc"),
        (197, "rfid"),
        (200, "sync"),
        (212, "paddi"),
        (223, "pnop"),
    ] {
        assert!(rt; row < 224);
        assert!(rt; row_at(row).name == name, "row {row}");
    }
    for (row, operation) in [
        (0, alu(AluOp::Addi, Inputs::BaseNumber)),
        (1, alu(AluOp::Addis, Inputs::BaseNumber)),
        (10, alu(AluOp::Ori, Inputs::SourceNumber)),
        (17, Operation::Branch(BranchRow::B)),
        (43, alu(AluOp::Add, Inputs::Two)),
        (
            6,
            Operation::Field(FieldRow::CompareNumber { signed: true }),
        ),
        (18, Operation::Branch(BranchRow::Bc)),
        (114, Operation::Trap(TrapRow::TrapRegister { long: false })),
        (116, Operation::Pick(PickRow::Select)),
        (196, Operation::Call),
        (
            197,
            system(SystemWhat::Return { hypervisor: false }, Privilege::Always),
        ),
        (200, system(SystemWhat::Sync, Privilege::Heavy)),
        (212, alu(AluOp::Paddi, Inputs::Relative)),
        (223, Operation::Hint),
    ] {
        assert!(rt; row < 224);
        assert!(rt; operation_at(row) == operation, "row {row}");
    }
}

#[test]
fn events_are_kept(rt: HostRuntime) -> Result<(), Fail> {
    let mut events = Events::new(rt.alloc());
    let event = Event::Irq {
        cycle: 7,
        nia: 4,
        vector: Vector::Decrementer,
    };
    events.push(event)?;
    assert_eq!(rt; events.as_slice(), [event].as_slice());
    Ok(())
}
