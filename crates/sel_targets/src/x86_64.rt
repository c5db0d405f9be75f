// The grammar of x86-64.
ghost use Rattle.std.specs.Prelude.{◌≡◌, ◌≤◌, length};
ghost use Rattle.sel_targets.specs.X8664.{x86_64_text};
ghost use Rattle.sel_targets.specs.Lines.{most_bytes};

const TEXT: &str = r#"%start stmt
%term CNST=1 ADDR=2 REG=3 INDIR=4 ASGN=5 ADD=6 SUB=7 MUL=8 AND=9 OR=10
%term XOR=11 SHL=12 SHR=13 NEG=14 RET=15 JUMP=16 LABEL=17 BEQ=18 BNE=19 BLT=20
%%
stmt: reg ""
stmt: ASGN(addr,reg) "mov qword ptr %0, %1\n" 1
stmt: ASGN(addr,con32) "mov qword ptr %0, %1\n" 1
stmt: RET(reg) "mov rax, %0\nret\n" 2
stmt: JUMP "jmp %a\n" 1
stmt: LABEL "%a:\n"
stmt: BEQ(reg,reg) "cmp %0, %1\nje %a\n" 2
stmt: BNE(reg,reg) "cmp %0, %1\njne %a\n" 2
stmt: BLT(reg,reg) "cmp %0, %1\njl %a\n" 2
reg: REG "%a"
reg: con32 "mov %c, %0\n" 1
reg: con "movabs %c, %0\n" 2
reg: addr "lea %c, %0\n" 1
reg: INDIR(addr) "mov %c, qword ptr %0\n" 1
reg: ADD(reg,con32) "mov %c, %0\nadd %c, %1\n" 2
reg: ADD(reg,INDIR(addr)) "mov %c, %0\nadd %c, qword ptr %1\n" 2
reg: ADD(reg,reg) "mov %c, %0\nadd %c, %1\n" 2
reg: SUB(reg,con32) "mov %c, %0\nsub %c, %1\n" 2
reg: SUB(reg,reg) "mov %c, %0\nsub %c, %1\n" 2
reg: MUL(reg,reg) "mov %c, %0\nimul %c, %1\n" 4
reg: AND(reg,con32) "mov %c, %0\nand %c, %1\n" 2
reg: AND(reg,reg) "mov %c, %0\nand %c, %1\n" 2
reg: OR(reg,con32) "mov %c, %0\nor %c, %1\n" 2
reg: OR(reg,reg) "mov %c, %0\nor %c, %1\n" 2
reg: XOR(reg,con32) "mov %c, %0\nxor %c, %1\n" 2
reg: XOR(reg,reg) "mov %c, %0\nxor %c, %1\n" 2
reg: SHL(reg,con6) "mov %c, %0\nshl %c, %1\n" 2
reg: SHL(reg,reg) "mov rcx, %1\nmov %c, %0\nshl %c, cl\n" 3
reg: SHR(reg,con6) "mov %c, %0\nsar %c, %1\n" 2
reg: SHR(reg,reg) "mov rcx, %1\nmov %c, %0\nsar %c, cl\n" 3
reg: NEG(reg) "mov %c, %0\nneg %c\n" 2
addr: reg "[%0]"
addr: ADDR "[rip+%a]"
addr: ADD(reg,con32) "[%0+%1]"
addr: ADD(reg,SHL(reg,scale)) "[%0+%1*%2]"
addr: ADD(ADD(reg,SHL(reg,scale)),con32) "[%0+%1*%2+%3]"
scale: CNST "1" range(a,0,0)
scale: CNST "2" range(a,1,1)
scale: CNST "4" range(a,2,2)
scale: CNST "8" range(a,3,3)
con6: CNST "%a" range(a,0,63)
con32: CNST "%a" range(a,-2147483648,2147483647)
con: CNST "%a"
"#;

pub fn text() -> &'static str
    ensures exact { result.now ≡ x86_64_text }
    ensures short { length result.now ≤ most_bytes }
{
    TEXT
}
