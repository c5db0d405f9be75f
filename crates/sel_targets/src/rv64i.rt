// The grammar of RV64I.
ghost use Rattle.std.specs.Prelude.{◌≡◌, ◌≤◌, length};
ghost use Rattle.sel_targets.specs.Rv64i.{rv64i_text};
ghost use Rattle.sel_targets.specs.Lines.{most_bytes};

const TEXT: &str = r#"%start stmt
%term CNST=1 ADDR=2 REG=3 INDIR=4 ASGN=5 ADD=6 SUB=7 MUL=8 AND=9 OR=10
%term XOR=11 SHL=12 SHR=13 NEG=14 RET=15 JUMP=16 LABEL=17 BEQ=18 BNE=19 BLT=20
%%
stmt: reg ""
stmt: ASGN(addr,reg) "sd %1, %0\n" 1
stmt: RET(reg) "mv a0, %0\nret\n" 2
stmt: JUMP "j %a\n" 1
stmt: LABEL "%a:\n"
stmt: BEQ(reg,reg) "beq %0, %1, %a\n" 1
stmt: BNE(reg,reg) "bne %0, %1, %a\n" 1
stmt: BLT(reg,reg) "blt %0, %1, %a\n" 1
reg: REG "%a"
reg: zero "%0"
reg: con12 "li %c, %0\n" 1
reg: con "li %c, %0\n" 2
reg: ADDR "la %c, %a\n" 2
reg: INDIR(addr) "ld %c, %0\n" 1
reg: ADD(reg,con12) "addi %c, %0, %1\n" 1
reg: ADD(con12,reg) "addi %c, %1, %0\n" 1
reg: ADD(reg,reg) "add %c, %0, %1\n" 1
reg: SUB(reg,reg) "sub %c, %0, %1\n" 1
reg: AND(reg,con12) "andi %c, %0, %1\n" 1
reg: AND(reg,reg) "and %c, %0, %1\n" 1
reg: OR(reg,con12) "ori %c, %0, %1\n" 1
reg: OR(reg,reg) "or %c, %0, %1\n" 1
reg: XOR(reg,con12) "xori %c, %0, %1\n" 1
reg: XOR(reg,reg) "xor %c, %0, %1\n" 1
reg: SHL(reg,con6) "slli %c, %0, %1\n" 1
reg: SHL(reg,reg) "sll %c, %0, %1\n" 1
reg: SHR(reg,con6) "srai %c, %0, %1\n" 1
reg: SHR(reg,reg) "sra %c, %0, %1\n" 1
reg: NEG(reg) "neg %c, %0\n" 1
addr: reg "0(%0)"
addr: ADD(reg,con12) "%1(%0)"
zero: CNST "zero" range(a,0,0)
con6: CNST "%a" range(a,0,63)
con12: CNST "%a" range(a,-2048,2047)
con: CNST "%a"
"#;

pub fn text() -> &'static str
    ensures exact { result.now ≡ rv64i_text }
    ensures short { length result.now ≤ most_bytes }
{
    TEXT
}
