// The grammar of AArch64.
ghost use Rattle.std.specs.Prelude.{◌≡◌, ◌≤◌, length};
ghost use Rattle.sel_targets.specs.Aarch64.{aarch64_text};
ghost use Rattle.sel_targets.specs.Lines.{most_bytes};

const TEXT: &str = r#"%start stmt
%term CNST=1 ADDR=2 REG=3 INDIR=4 ASGN=5 ADD=6 SUB=7 MUL=8 AND=9 OR=10
%term XOR=11 SHL=12 SHR=13 NEG=14 RET=15 JUMP=16 LABEL=17 BEQ=18 BNE=19 BLT=20
%%
stmt: reg ""
stmt: ASGN(addr,reg) "stur %1, %0\n" 1
stmt: RET(reg) "mov x0, %0\nret\n" 2
stmt: JUMP "b %a\n" 1
stmt: LABEL "%a:\n"
stmt: BEQ(reg,reg) "cmp %0, %1\nb.eq %a\n" 2
stmt: BNE(reg,reg) "cmp %0, %1\nb.ne %a\n" 2
stmt: BLT(reg,reg) "cmp %0, %1\nb.lt %a\n" 2
reg: REG "%a"
reg: con16 "mov %c, #%0\n" 1
reg: con "ldr %c, =%0\n" 2
reg: ADDR "ldr %c, =%a\n" 2
reg: INDIR(addr) "ldur %c, %0\n" 1
reg: ADD(reg,con12) "add %c, %0, #%1\n" 1
reg: ADD(reg,SHL(reg,con6)) "add %c, %0, %1, lsl #%2\n" 1
reg: ADD(reg,MUL(reg,reg)) "madd %c, %1, %2, %0\n" 3
reg: ADD(reg,reg) "add %c, %0, %1\n" 1
reg: SUB(reg,con12) "sub %c, %0, #%1\n" 1
reg: SUB(reg,reg) "sub %c, %0, %1\n" 1
reg: MUL(reg,reg) "mul %c, %0, %1\n" 3
reg: AND(reg,reg) "and %c, %0, %1\n" 1
reg: OR(reg,reg) "orr %c, %0, %1\n" 1
reg: XOR(reg,reg) "eor %c, %0, %1\n" 1
reg: SHL(reg,con6) "lsl %c, %0, #%1\n" 1
reg: SHL(reg,reg) "lsl %c, %0, %1\n" 1
reg: SHR(reg,con6) "asr %c, %0, #%1\n" 1
reg: SHR(reg,reg) "asr %c, %0, %1\n" 1
reg: NEG(reg) "neg %c, %0\n" 1
addr: reg "[%0]"
addr: ADD(reg,con9) "[%0, #%1]"
con6: CNST "%a" range(a,0,63)
con9: CNST "%a" range(a,-256,255)
con12: CNST "%a" range(a,0,4095)
con16: CNST "%a" range(a,0,65535)
con: CNST "%a"
"#;

pub fn text() -> &'static str
    ensures exact { result.now ≡ aarch64_text }
    ensures short { length result.now ≤ most_bytes }
{
    TEXT
}
