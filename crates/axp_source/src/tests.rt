use super::*;
use axp_decode::{BranchOp, Instr, MemOp, MiscOp, Op, Operand, PalOp};
use std::test::*;

#[test]
fn directives_are_read_and_written(rt: HostRuntime) {
    for (line, directive) in [
        (".memory 32768", Directive::Memory(32768)),
        (".memory 0", Directive::Memory(0)),
        (
            ".memory 18446744073709551615",
            Directive::Memory(18_446_744_073_709_551_615),
        ),
        (
            ".entry FFFFFC0000002000",
            Directive::Entry(0xFFFF_FC00_0000_2000),
        ),
        (".stack 0000000000000000", Directive::Stack(0)),
        (
            ".stack FFFFFC0000003F00",
            Directive::Stack(0xFFFF_FC00_0000_3F00),
        ),
        (".table 3", Directive::Table(3)),
        (".at 00002000", Directive::At(0x2000)),
        (".at FFFFFFFC", Directive::At(0xFFFF_FFFC)),
        (".byte 0A", Directive::Byte(10)),
        (".byte FF", Directive::Byte(255)),
        (".word 47FF041F", Directive::Word(0x47FF_041F)),
    ] {
        let read = read_statement(line.as_bytes());
        assert!(rt; read == Some(Statement::Directive(directive)), "at {line}");
        let written = write_directive(directive);
        assert!(rt; written.as_slice() == line.as_bytes(), "at {line}");
    }
}

#[test]
fn instructions_are_read_and_written(rt: HostRuntime) {
    for (line, instr) in [
        (
            "LDQ_L R1,0(R30)",
            Instr::Memory {
                op: MemOp::LDQ_L,
                a: 1,
                b: 30,
                disp: 0,
            },
        ),
        (
            "STQ_C R1,16(R30)",
            Instr::Memory {
                op: MemOp::STQ_C,
                a: 1,
                b: 30,
                disp: 16,
            },
        ),
        (
            "LDA R31,32767(R0)",
            Instr::Memory {
                op: MemOp::LDA,
                a: 31,
                b: 0,
                disp: 0x7FFF,
            },
        ),
        (
            "LDAH R2,-32768(R31)",
            Instr::Memory {
                op: MemOp::LDAH,
                a: 2,
                b: 31,
                disp: 0x8000,
            },
        ),
        (
            "STB R9,-1(R10)",
            Instr::Memory {
                op: MemOp::STB,
                a: 9,
                b: 10,
                disp: 0xFFFF,
            },
        ),
        (
            "BEQ R1,-5",
            Instr::Branch {
                op: BranchOp::BEQ,
                a: 1,
                disp: 0x1F_FFFB,
            },
        ),
        (
            "BR R31,0",
            Instr::Branch {
                op: BranchOp::BR,
                a: 31,
                disp: 0,
            },
        ),
        (
            "BSR R26,1048575",
            Instr::Branch {
                op: BranchOp::BSR,
                a: 26,
                disp: 0xF_FFFF,
            },
        ),
        (
            "BGT R0,-1048576",
            Instr::Branch {
                op: BranchOp::BGT,
                a: 0,
                disp: 0x10_0000,
            },
        ),
        (
            "JMP R31,(R26),0",
            Instr::Jump {
                kind: 0,
                a: 31,
                b: 26,
                hint: 0,
            },
        ),
        (
            "JSR R26,(R27),16383",
            Instr::Jump {
                kind: 1,
                a: 26,
                b: 27,
                hint: 16383,
            },
        ),
        (
            "RET R31,(R26),1",
            Instr::Jump {
                kind: 2,
                a: 31,
                b: 26,
                hint: 1,
            },
        ),
        (
            "JSR_COROUTINE R1,(R2),3",
            Instr::Jump {
                kind: 3,
                a: 1,
                b: 2,
                hint: 3,
            },
        ),
        (
            "ADDQ R1,#1,R1",
            Instr::Operate {
                op: Op::ADDQ,
                a: 1,
                b: Operand::Literal { value: 1 },
                c: 1,
            },
        ),
        (
            "BIS R31,#255,R0",
            Instr::Operate {
                op: Op::BIS,
                a: 31,
                b: Operand::Literal { value: 255 },
                c: 0,
            },
        ),
        (
            "ADDL/V R1,R2,R3",
            Instr::Operate {
                op: Op::ADDLV,
                a: 1,
                b: Operand::Reg { n: 2, pad: 0 },
                c: 3,
            },
        ),
        (
            "SEXTW R31,R10,R11",
            Instr::Operate {
                op: Op::SEXTW,
                a: 31,
                b: Operand::Reg { n: 10, pad: 0 },
                c: 11,
            },
        ),
        (
            "MB R0,R0",
            Instr::Misc {
                op: MiscOp::MB,
                a: 0,
                b: 0,
            },
        ),
        (
            "RPCC R4,R31",
            Instr::Misc {
                op: MiscOp::RPCC,
                a: 4,
                b: 31,
            },
        ),
        ("halt", Instr::Pal { op: PalOp::HALT }),
        (
            "wrvptptr",
            Instr::Pal {
                op: PalOp::WRVPTPTR,
            },
        ),
        (
            "wrunique",
            Instr::Pal {
                op: PalOp::WRUNIQUE,
            },
        ),
    ] {
        let read = read_statement(line.as_bytes());
        assert!(rt; read == Some(Statement::Instruction(instr)), "at {line}");
        let written = write_instruction(instr);
        let same = match written {
            Some(text) => text.as_slice() == line.as_bytes(),
            None => false,
        };
        assert!(rt; same, "at {line}");
    }
}

#[test]
fn labels_are_read(rt: HostRuntime) {
    for (line, label) in [
        ("again:", "again"),
        ("R1:", "R1"),
        ("x9y:", "x9y"),
        ("Z:", "Z"),
        ("halt:", "halt"),
    ] {
        let read = read_statement(line.as_bytes());
        assert!(rt;
            read == Some(Statement::Label(label.as_bytes())),
            "at {line}"
        );
    }
}

#[test]
fn branches_to_labels_are_read(rt: HostRuntime) {
    for (line, op, a, label) in [
        ("BNE R1,again", BranchOp::BNE, 1, "again"),
        ("BR R31,R5", BranchOp::BR, 31, "R5"),
        ("BLBC R10,z0", BranchOp::BLBC, 10, "z0"),
    ] {
        let read = read_statement(line.as_bytes());
        let label = label.as_bytes();
        assert!(rt;
            read == Some(Statement::BranchTo { op, a, label }),
            "at {line}"
        );
    }
}

#[test]
fn lines_spelled_otherwise_are_refused(rt: HostRuntime) {
    for line in [
        "",
        " ",
        ".",
        ":",
        ".memory",
        ".memory ",
        ".memory 08",
        ".memory +8",
        ".memory -0",
        ".memory 18446744073709551616",
        ".memory 32768 ",
        ".memory  32768",
        ".Memory 32768",
        " .memory 32768",
        ".table 1x",
        ".entry FFFFFC000000200",
        ".entry 0FFFFFC0000002000",
        ".entry fffffc0000002000",
        ".stack 12",
        ".at 2000",
        ".at 000002000",
        ".at 0000200G",
        ".byte 7",
        ".byte 0a",
        ".byte 100",
        ".word 47FF04",
        ".long 00000000",
    ] {
        assert!(rt; read_statement(line.as_bytes()).is_none(), "at {line}");
    }
}

#[test]
fn labels_spelled_otherwise_are_refused(rt: HostRuntime) {
    for line in [
        "9x:",
        "again",
        "again: ",
        "again::",
        "again:x",
        " again:",
        "a b:",
        "a_b:",
        "-:",
        "BNE R1,9x",
        "BNE R1,a_b",
        "BNE R1,again ",
        "BNE R1, again",
        "BNE R32,again",
        "BNE R01,again",
        "BNE 1,again",
        "BNE R1,",
        "BNE again",
        "BNE,again",
    ] {
        assert!(rt; read_statement(line.as_bytes()).is_none(), "at {line}");
    }
}

#[test]
fn instructions_spelled_otherwise_are_refused(rt: HostRuntime) {
    for line in [
        "HALT",
        "halt ",
        "halt R0",
        "nop",
        "ldq R1,0(R2)",
        "LDX R1,0(R2)",
        "LDQ",
        "LDQ ",
        "LDQ R1",
        "LDQ R1,",
        "LDQ R1,0",
        "LDQ R1,(R2)",
        "LDQ R1,0(R2",
        "LDQ R1,0R2)",
        "LDQ R1,0(R2))",
        "LDQ R1,0(R2) ",
        "LDQ R1, 0(R2)",
        "LDQ  R1,0(R2)",
        "LDQ R1,00(R2)",
        "LDQ R1,+1(R2)",
        "LDQ R1,-0(R2)",
        "LDQ R1,32768(R2)",
        "LDQ R1,-32769(R2)",
        "LDQ R1,65536(R2)",
        "LDQ R32,0(R2)",
        "LDQ R01,0(R2)",
        "LDQ R1,0(R32)",
        "LDQ r1,0(R2)",
        "LDQ 1,0(R2)",
        "BEQ R1,1048576",
        "BEQ R1,-1048577",
        "BEQ R1,05",
        "BEQ R1,--5",
        "JMP R31,(R26),16384",
        "JMP R31,R26,0",
        "JMP R31,(R26)",
        "JMP R31,(R26),-1",
        "ADDQ R1,R2",
        "ADDQ R1,#256,R1",
        "ADDQ R1,#01,R1",
        "ADDQ R1,#-1,R1",
        "ADDQ R1,1,R1",
        "ADDQ R1,R2,R3,R4",
        "ADDQ R1,R2,#3",
        "ADDLV R1,R2,R3",
        "ADDQ/v R1,R2,R3",
        "MB",
        "MB R0",
        "MB R0,R0,R0",
        "MB R0,#0",
        "MB R0,R32",
    ] {
        assert!(rt; read_statement(line.as_bytes()).is_none(), "at {line}");
    }
}

#[test]
fn what_has_no_line_is_not_written(rt: HostRuntime) {
    let b = Operand::Reg { n: 2, pad: 1 };
    for instr in [
        Instr::Floating { word: 0x5800_0000 },
        Instr::Reserved { word: 0x0400_0000 },
        Instr::Operate {
            op: Op::ADDQ,
            a: 1,
            b,
            c: 3,
        },
    ] {
        assert!(rt; write_instruction(instr).is_none());
    }
}
