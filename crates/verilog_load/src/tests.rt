use crate::{TextRefusal, load_text};
use std::alloc::{AllocError, Global};
use std::test::Fail;
use verilog_mean::MeanRefusal;
use verilog_read::{ReadRefusal, UnsupportedForm};
use verilog_sim::TreeSim;

/// Why a text gives no checked tree.
fn refusal(alloc: Global, text: &str) -> Option<TextRefusal> {
    match load_text(alloc, text.as_bytes()) {
        Ok(_) => None,
        Err(refusal) => Some(refusal),
    }
}

/// A module with an output `q` of 8 bits and these items, which begin at place 69.
fn with_items(alloc: Global, items: &str) -> Result<String, AllocError> {
    let mut text = String::new(alloc);
    text.push_str("module m(input clk,input reset,input [7:0] a,input e,output [7:0] q);")?;
    text.push_str(items)?;
    text.push_str("endmodule")?;
    Ok(text)
}

/// A module whose output has a value that begins at place 78: some bytes again and again, and others behind them.
fn with_value(alloc: Global, part: &str, times: u32, last: &str) -> Result<String, AllocError> {
    let mut items = String::new(alloc);
    items.push_str("assign q=")?;
    for _ in 0..times {
        items.push_str(part)?;
    }
    items.push_str(last)?;
    items.push_str(";")?;
    with_items(alloc, items.as_str())
}

#[test]
fn takes_sound_modules(rt: HostRuntime) -> Result<(), Fail> {
    let alloc = rt.alloc();
    for items in [
        "assign q=a;",
        "wire [7:0] w;assign q=w+8'd1;assign w=~a;",
        "assign q=e?a-8'h01:(a&8'b1010_1010|a^8'O17);",
        "wire c=a<8'h10;assign q={7'h00,c==e};",
        "assign q={a[3:0],a[7:4]};",
        "wire [63:0] w=64'hffff_ffff_ffff_ffff;assign q=/* the low byte */ w[7:0]; // of w\n",
        "reg [7:0] r;assign q=r;always @(posedge clk) r<=a;",
        "reg [7:0] r;assign q=r;always @(posedge clk) if (reset) r<=8'h07; else r<=r+a;",
        "reg [7:0] m [0:3];assign q=m[a[1:0]];always @(posedge clk) if (e) m[a[3:2]]<=a;",
        "wire [7:0] x;wire [7:0] y;assign x=y;assign y=a;assign q=x;",
    ] {
        let text = with_items(alloc, items)?;
        assert_eq!(rt; refusal(alloc, text.as_str()), None, "{items}");
    }
    Ok(())
}

#[test]
fn refuses_texts_at_places(rt: HostRuntime) -> Result<(), Fail> {
    let alloc = rt.alloc();
    for (value, at) in [
        ("8'h1ff", 83),
        ("65'h1", 78),
        ("08'h1", 78),
        ("1234567890'h1", 78),
        ("8'x1", 80),
        ("8'*1", 80),
        ("8'h_1", 81),
        ("a b", 80),
        ("~~a", 79),
        ("/*/", 91),
        ("wire", 78),
        ("1234567890", 87),
        ("\\a", 78),
        ("a;endmodule endmodule", 90),
    ] {
        let text = with_value(alloc, "", 0, value)?;
        assert_eq!(rt;
            refusal(alloc, text.as_str()),
            Some(TextRefusal::Unread(ReadRefusal::Text { at })),
            "{value}"
        );
    }
    let long = with_value(alloc, "x", 255, "$y")?;
    assert_eq!(rt;
        refusal(alloc, long.as_str()),
        Some(TextRefusal::Unread(ReadRefusal::Text { at: 333 }))
    );
    Ok(())
}

#[test]
fn tells_forms_apart(rt: HostRuntime) -> Result<(), Fail> {
    let alloc = rt.alloc();
    for (part, times, last, at, form) in [
        ("", 0, "e<<2", 79, UnsupportedForm::Shift),
        ("", 0, "e>>>2", 79, UnsupportedForm::Shift),
        ("", 0, "31", 78, UnsupportedForm::Bare),
        ("", 0, "a*b", 79, UnsupportedForm::Times),
        ("", 0, "a/b", 79, UnsupportedForm::Times),
        ("", 0, "a>=b", 79, UnsupportedForm::Compare),
        ("", 0, "a===b", 79, UnsupportedForm::Compare),
        ("", 0, "a&&b", 79, UnsupportedForm::Logic),
        ("", 0, "!a", 78, UnsupportedForm::Logic),
        ("", 0, "a~^b", 79, UnsupportedForm::Logic),
        ("", 0, "#1", 78, UnsupportedForm::Delay),
        ("", 0, "$time", 78, UnsupportedForm::System),
        ("", 0, "`a", 78, UnsupportedForm::Directive),
        ("", 0, "case", 78, UnsupportedForm::Word),
        ("(", 64, "a", 141, UnsupportedForm::Deep),
    ] {
        let text = with_value(alloc, part, times, last)?;
        let wanted = TextRefusal::Unread(ReadRefusal::Unsupported { at, form });
        assert_eq!(rt; refusal(alloc, text.as_str()), Some(wanted), "{last}");
    }
    Ok(())
}

#[test]
fn refuses_by_each_rule(rt: HostRuntime) -> Result<(), Fail> {
    let alloc = rt.alloc();
    for (items, wanted) in [
        ("wire a;assign q=a;", MeanRefusal::NameTwice { at: 74 }),
        (
            "wire [64:0] w=a;assign q=a;",
            MeanRefusal::BadSize { at: 75, found: 64 },
        ),
        (
            "reg [7:0] m [0:4];assign q=a;",
            MeanRefusal::BadSize { at: 84, found: 4 },
        ),
        (
            "assign q=w;wire [7:0] w=a;",
            MeanRefusal::NameUnknown { at: 78 },
        ),
        ("assign q={7'h00,clk};", MeanRefusal::KindDiffers { at: 85 }),
        (
            "assign q=a[8:1];",
            MeanRefusal::SelectOutside {
                at: 78,
                high: 8,
                low: 1,
                width: 8,
            },
        ),
        (
            "assign q=a+e;",
            MeanRefusal::WidthDiffers {
                at: 79,
                left: 8,
                right: 1,
            },
        ),
        (
            "assign q=a;assign q=a;",
            MeanRefusal::DriverTwice { at: 87 },
        ),
        (
            "wire [7:0] w;assign q=a;",
            MeanRefusal::DriverMissing { at: 80 },
        ),
        (
            "wire [7:0] w=x;wire [7:0] x=w;assign q=a;",
            MeanRefusal::NameUnknown { at: 82 },
        ),
        ("wire [7:0] w=~w;assign q=a;", MeanRefusal::Loop { at: 80 }),
        ("assign q=q;", MeanRefusal::Loop { at: 66 }),
        // Only `d` and `f` depend on themselves.
        (
            "wire [7:0] c;wire [7:0] d;wire [7:0] f;assign f=d;assign c=d;assign d=f;assign q=c;",
            MeanRefusal::Loop { at: 93 },
        ),
    ] {
        let text = with_items(alloc, items)?;
        assert_eq!(rt;
            refusal(alloc, text.as_str()),
            Some(TextRefusal::Unsound(wanted)),
            "{items}"
        );
    }
    Ok(())
}

/// A counter with an enable and an array that takes its values.
const COUNT: &str = "module count(
  input clk,
  input reset,
  input step,
  output [7:0] q
);
  reg [7:0] n;
  reg [7:0] seen [0:3];
  wire [7:0] up = n + 8'h01;
  wire [7:0] next = step ? up : n;
  assign q = seen[n[1:0]];
  always @(posedge clk) if (reset) n <= 8'h00; else n <= next;
  always @(posedge clk) if (step) seen[n[1:0]] <= {n[3:0], 4'h9};
endmodule
";

/// The outputs of cycles with these inputs, from contents that are all 0 but for those that are poked.
fn outputs(
    alloc: Global,
    text: &str,
    pokes: &[(u32, u64)],
    cycles: &[[u64; 3]],
) -> Result<Vec<u64>, AllocError> {
    let mut told = Vec::new(alloc);
    let Ok(checked) = load_text(alloc, text.as_bytes()) else {
        return Ok(told);
    };
    let mut sim = TreeSim::new(alloc, &checked)?;
    for (reg, value) in pokes {
        if (*reg as usize) < sim.flat.regs.len() {
            sim.poke_reg(*reg, *value);
        }
    }
    let mut outs = Vec::from_elem(alloc, 0u64, sim.flat.outs.len())?;
    for ins in cycles {
        if sim.flat.ins == 3 && outs.len() == sim.flat.outs.len() && outs.len() > 0 {
            sim.step(ins.as_slice(), &mut outs);
            told.push(outs[0])?;
        }
    }
    Ok(told)
}

#[test]
fn steps_a_counter(rt: HostRuntime) -> Result<(), Fail> {
    let alloc = rt.alloc();
    let cycles = [
        [0u64, 1, 1],
        [0, 0, 1],
        [0, 0, 1],
        [0, 0, 1],
        [0, 0, 1],
        [0, 0, 0],
        [0, 0, 0],
    ];
    let told = outputs(alloc, COUNT, &[], &cycles)?;
    assert_eq!(rt; told.as_slice(), [0u64, 9, 0, 0, 0, 9, 9].as_slice());
    // With 5 in the register, cell 1 takes 59 in the cycle of the reset.
    let poked = outputs(alloc, COUNT, &[(0, 5)], &cycles)?;
    assert_eq!(rt; poked.as_slice(), [0u64, 0, 89, 0, 0, 9, 9].as_slice());
    Ok(())
}
