//! What is written of the rules of code, modules and runs: made from docs/RULES.md by `.ci/rules`.

pub const C01_WORDS: &str = "C01: the code of an equation has more than 65,535 instructions\n\
In a model also: an equation of a property's text, or its game, is too large:\n  \
C05 line 8 column 10. Place: the property's name\n\
What to do: split the equation\n\
$ python3 -c \"print('pbes nu X(a, b, c, d, e, f, g, h: Bool) = ' + ' && '.join(['X(a, b, c, d, \
e, f, g, h)'] * 8000) + '; init X(' + ', '.join(['true'] * 8) + ');')\" | pbsolve solve\n\
C01 equation 0\n";

pub const C02_WORDS: &str = "C02: the code of an equation has more than 32 operands at once: a \
term nested to\n  \
the right more than 31 deep\n\
In a model also: an equation of a property's text, or its game, is too large:\n  \
C05 line 8 column 10. Place: the property's name\n\
What to do: nest sums and the like to the left, as a + b + c does\n\
$ python3 -c \"print('%range Nat 0 1\\npbes nu X(n: Nat) = val(' + 'n + (' * 32 + 'n' + ')' * \
32 + ' == 0); init X(0);')\" | pbsolve solve\n\
C02 equation 0\n";

pub const C03_WORDS: &str = "C03: the code of an equation has more than 32 brackets of && and \
|| open at once\n\
In a model also: an equation of a property's text, or its game, is too large:\n  \
C05 line 8 column 10. Place: the property's name\n\
What to do: split the equation\n\
$ python3 -c \"print('pbes nu X = ' + 'X && (X || (' * 17 + 'X' + '))' * 17 + '; init X;')\" | \
pbsolve solve\n\
C03 equation 0\n";

pub const C04_WORDS: &str = "C04: the code of an equation has more than 8 quantified variables \
inside one\n  \
another, 240 in an equation\n\
In a model also: an equation of a property's text, or its game, is too large:\n  \
C05 line 8 column 10. Place: the property's name\n\
What to do: split the equation, or replace two small variables by one\n\
$ echo 'pbes nu X = forall a, b, c, d, e, f, g, h, i: Bool . X; init X;' | pbsolve solve\n\
C04 equation 0\n";

pub const C05_WORDS: &str = "C05: the code of an equation has more than 1,000,000 steps: \
instructions times\n  \
the values that quantifiers run through\n\
In a model also: an equation of a property's text, or its game, is too large:\n  \
C05 line 8 column 10. Place: the property's name\n\
What to do: quantify over less\n\
$ printf '%%range Int 1 83334\\npbes nu X = forall n: Int . val(n + 1 + 1 + 1 > 0); init X;' | \
pbsolve solve\n\
C05 equation 0\n";

pub const C06_WORDS: &str = "C06: the code of an equation has more than 100,000 tokens: leaves \
and brackets\n  \
that one instance may write\n\
In a model also: an equation of a property's text, or its game, is too large:\n  \
C05 line 8 column 10. Place: the property's name\n\
What to do: quantify over less, or make the quantified variable a parameter of\n  \
an equation of its own\n\
$ printf '%%range Int 1 99999\\npbes nu X = forall n: Int . val(n > 0); init X;' | pbsolve \
solve\n\
C06 equation 0\n";

pub const B01_WORDS: &str = "B01: the first four bytes aren't PBES. Place: the byte that \
differs\n\
What to do: is it a text? then solve\n\
$ echo 'pbes nu X = X; init X;' | pbsolve verify\n\
B01 byte 0\n\
Common mistakes, and what to write instead:\n\
- a text to `verify`, a module to `solve`: texts go to `solve`, `game`,\n  \
`certificate`, `solution`, `explain`, `compile`, modules to `verify`, `list`,\n  \
`solve-code`\n";

pub const B02_WORDS: &str = "B02: the version is neither 1 nor 2. Place: byte 4\n\
$ echo 50424553030001000158000002000000000000000200050000 | xxd -r -p | pbsolve verify\n\
B02 byte 4\n";

pub const B03_WORDS: &str = "B03: the bytes end in a field. Place: their length\n\
What to do: was the file cut off?\n\
$ echo 504245530100010001580000020000000000000002000500 | xxd -r -p | pbsolve verify\n\
B03 byte 24\n";

pub const B04_WORDS: &str = "B04: no such instruction in this version. Place: its byte\n\
What to do: INL needs version 2\n\
$ echo 50424553010001000158000002000000000000000200250000 | xxd -r -p | pbsolve verify\n\
B04 byte 22\n";

pub const B05_WORDS: &str = "B05: a field out of its limit: a count, a name, a carrier, a sign; \
more than\n  \
2^22 instances, or 2^62 with --reached. Place: where the field begins; for\n  \
instances the byte after the equations\n\
$ echo 50424553010001020158000002000000000000000200050000 | xxd -r -p | pbsolve verify\n\
B05 byte 7\n";

pub const B06_WORDS: &str = "B06: bytes after the module. Place: the first of them\n\
$ echo 5042455301000100015800000200000000000000020005000000 | xxd -r -p | pbsolve verify\n\
B06 byte 25\n";

pub const B07_WORDS: &str = "B07: an initial instance that isn't there. Place: the equation's \
byte, or the\n  \
value's first\n\
$ echo 50424553010001000158000002000000000000000200050001 | xxd -r -p | pbsolve verify\n\
B07 byte 24\n";

pub const V01_WORDS: &str = "V01: an operand is missing, or is below the loop's floor\n\
As code: POP, END\n\
What to do: push it first; in a body, push what the body pops\n\
$ echo 50424553010001000158000002000000000000000200050000 | xxd -r -p | pbsolve verify\n\
V01 equation 0 place 0\n";

pub const V02_WORDS: &str = "V02: an operand, argument or slot of another kind\n\
As code: INT 1, BOOL 1, ADD, END\n\
$ echo 50424553010001000158000040420f00a086010004000101000000000000000201060000 | xxd -r -p | \
pbsolve verify\n\
V02 equation 0 place 2\n";

pub const V03_WORDS: &str = "V03: the divisor may be below 1\n\
As code: GET 0, GET 0, DIV, POP, YES, END, the slot being 0 to 3\n\
What to do: RNG or MAX before it\n\
$ echo \
5042455301000101015801020000000003000000000600000001000000060001040000000000000004000a0521000000\
00000000000000 | xxd -r -p | pbsolve verify\n\
V03 equation 0 place 2\n";

pub const V04_WORDS: &str = "V04: the result may leave 64 bits\n\
As code: INT 9223372036854775807, INT 1, ADD, YES, END\n\
What to do: RNG before it\n\
$ echo 50424553010001000158000040420f00a0860100050001ffffffffffffff7f01010000000000000006210000 \
| xxd -r -p | pbsolve verify\n\
V04 equation 0 place 2\n";

pub const V05_WORDS: &str = "V05: a target past the last instruction\n\
As code: JMP 5, END\n\
$ echo 50424553010001000158000040420f00a086010002001805000000 | xxd -r -p | pbsolve verify\n\
V05 equation 0 place 0\n";

pub const V06_WORDS: &str = "V06: a target that isn't further on\n\
As code: JMP 0, END\n\
What to do: loops are LOOP and NEXT\n\
$ echo 50424553010001000158000040420f00a086010002001800000000 | xxd -r -p | pbsolve verify\n\
V06 equation 0 place 0\n";

pub const V07_WORDS: &str = "V07: a target in another body\n\
As code: JMP 2, LOOP 0, NEXT, YES, END\n\
$ echo 5042455301000100015800010040420f00a086010005001802001c001d210000 | xxd -r -p | pbsolve \
verify\n\
V07 equation 0 place 0\n";

pub const V08_WORDS: &str = "V08: an argument that may lie outside its carrier\n\
As code: GET 0, INT 1, ADD, CALL 0, END, the parameter being 0 to 3\n\
What to do: RNG before the call, with CUT on its other way\n\
$ echo \
50424553010001000158010200000000030000000040420f00a086010005000400010100000000000000062400000000\
00000000000000 | xxd -r -p | pbsolve verify\n\
V08 equation 0 place 3\n";

pub const V09_WORDS: &str = "V09: no such slot, loop slot or equation, or a loop slot in use\n\
As code: GET 0, END, without slots\n\
$ echo 50424553010001000158000040420f00a0860100020004000000 | xxd -r -p | pbsolve verify\n\
V09 equation 0 place 0\n";

pub const V10_WORDS: &str = "V10: more than 32 operands\n\
As code: BOOL 1 33 times, YES, END\n\
$ echo \
50424553010001000158000040420f00a086010023000201020102010201020102010201020102010201020102010201\
02010201020102010201020102010201020102010201020102010201020102010201020102010201210000 | xxd -r \
-p | pbsolve verify\n\
V10 equation 0 place 32\n";

pub const V11_WORDS: &str = "V11: two ways meet with other operands, brackets or roots\n\
As code: BOOL 1, JT 4, INT 1, JMP 5, BOOL 0, YES, END\n\
What to do: leave the same operands, brackets and roots on both\n\
$ echo 50424553010001000158000040420f00a0860100070002011904000101000000000000001805000200210000 \
| xxd -r -p | pbsolve verify\n\
V11 equation 0 place 4\n";

pub const V12_WORDS: &str = "V12: loops don't pair, are nested above 8, contain END, or end \
with other\n  \
operands, brackets or roots than they began\n\
As code: NEXT, END\n\
$ echo 50424553010001000158000040420f00a086010002001d0000 | xxd -r -p | pbsolve verify\n\
V12 equation 0 place 0\n";

pub const V13_WORDS: &str = "V13: brackets don't pair, or more than 32 are open\n\
As code: CLOSE, END\n\
$ echo 50424553010001000158000040420f00a08601000200200000 | xxd -r -p | pbsolve verify\n\
V13 equation 0 place 0\n";

pub const V14_WORDS: &str = "V14: not exactly one root\n\
As code: END\n\
What to do: write one leaf or one bracket\n\
$ echo 50424553010001000158000040420f00a086010001000000 | xxd -r -p | pbsolve verify\n\
V14 equation 0 place 0\n";

pub const V15_WORDS: &str = "V15: the code runs past its last instruction\n\
As code: YES\n\
What to do: end with END\n\
$ echo 50424553010001000158000040420f00a086010001002100 | xxd -r -p | pbsolve verify\n\
V15 equation 0 place 0\n";

pub const V16_WORDS: &str = "V16: the stated steps or tokens are below the static counts, or \
above 1,000,000\n  \
or 100,000\n\
As code: YES, END with 1 step stated\n\
What to do: docs/MODULES.md, \"Static counts\"\n\
$ echo 50424553010001000158000001000000010000000200210000 | xxd -r -p | pbsolve verify\n\
V16 equation 0 place 0\n";

pub const G01_WORDS: &str = "G01: the game of the reached instances has more than 2^24 \
vertices, or, in a\n  \
model and with --reached, more than 2^30: 2, one for each instance, and one\n  \
for each bracket inside a right side\n\
In a model also: an equation of a property's text, or its game, is too large:\n  \
C05 line 8 column 10. Place: the property's name\n\
What to do: fewer instances, or flatter right sides: a quantifier or a || inside\n  \
an && costs a vertex an instance\n\
$ printf '%%range Int 0 511\\n%%range Nat 0 32767\\nsort U = struct u;\\npbes nu X(n: Int) = \
forall m: Nat . exists e: U . X((n + 1) mod 512); init X(0);' | pbsolve solve\n\
G01\n";

pub const U01_WORDS: &str = "U01: no command, an unknown one, an option that the command \
doesn't have, a\n  \
property that the model doesn't have, a number of workers outside 1 to 16, a\n  \
solver other than zielonka and lift, rule without a number that the program\n  \
prints, usage with a word that is no command, or a request for help\n\
In a model also: no property has the name after --property\n\
What to do: pbsolve usage lists the commands, pbsolve usage COMMAND the options\n  \
of one\n\
$ pbsolve\n\
U01\n\
Common mistakes, and what to write instead:\n\
- `pbsolve solve FILE`, `-w 2`, `--workers 0`, `Solve`: `pbsolve solve < FILE`,\n  \
`--workers 2`; commands are in small letters, and `pbsolve usage` lists them\n\
- `--help`, `help`, `check --help`, `--version`: `pbsolve usage`,\n  \
`pbsolve usage check`, `pbsolve version`\n";

pub const U02_WORDS: &str = "U02: the input has more than 67,108,864 bytes\n\
$ head -c 67108865 /dev/zero | pbsolve solve\n\
U02\n";

pub const M01_WORDS: &str = "M01: a request for memory was refused; nothing was answered\n\
What to do: a larger machine or a smaller model; 125 to 250 bytes an instance,\n  \
and more for long right sides (bench/README.md)\n\
$ printf '%%range Int 0 4194303\\npbes nu X(n: Int) = X((n + 1) mod 4194304); init X(0);' | \
(ulimit -v 300000; pbsolve solve)\n\
M01\n";

pub const E01_WORDS: &str = "E01: the input couldn't be read, or a file couldn't, whose name \
then comes\n  \
before the number\n\
What to do: does the file exist, and may you read it?\n\
$ pbsolve solve < .\n\
E01\n";

pub const E02_WORDS: &str = "E02: writing the output failed; a proper prefix of it may have \
gone out\n\
What to do: discard what went out\n\
$ pbsolve solve < examples/test_then_set.pbes > /dev/full\n\
E02\n";
