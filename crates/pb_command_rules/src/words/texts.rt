//! What is written of the rules of texts and models: made from docs/RULES.md by `.ci/rules`.

pub const P01_WORDS: &str = "P01: a byte that begins no token, as #, & alone, or a letter \
outside ASCII\n\
What to do: write comments after %; double && and ||\n\
$ echo 'pbes nu X = X; init X; #' | pbsolve solve\n\
P01 line 1 column 24\n\
Common mistakes, and what to write instead:\n\
- a modal formula, `[true] X`, in a text: a model, for `check` and `translate`\n\
- `//`, `/* */` or `#` before a comment: `%`, to the end of the line\n\
- nothing that shows, and P01 at line 1 column 1: a file without a byte order\n  \
mark, which some editors write unseen, and in UTF-8, not UTF-16\n\
Common mistakes in a model, and what to write instead:\n\
- `#define n 3`, `a & b`, `~a`: `const n = 3;`, `a && b`, `!a`\n";

pub const P02_WORDS: &str = "P02: a token that can't occur here; the end of the text counts as \
one\n\
In a model also: a test that begins with a bracket, or has a connective or a\n  \
quantifier, outside val(..); a fixpoint or a quantifier directly after !, [A]\n  \
or <A>; = for :=; one of model state define step property skip as a name; a\n  \
word without an operand or before a word, a second until or leads_to, a ninth\n  \
set after fair, fair within fair. Place: the token\n\
What to do: read the token at the place, and the grammar in docs/MANUAL.md\n\
$ echo 'nu X = X; init X;' | pbsolve solve\n\
P02 line 1 column 1\n\
Common mistakes, and what to write instead:\n\
- data without `val(..)`: `val(n == true) => X(n)`: in a text a formula has data\n  \
only inside `val(..)`\n\
- a reserved word as a name: another name:\n  \
`cons map var eqn glob lambda whr end in act proc` are reserved as well\n\
- `=` for `==`: `b == true`\n\
- `and`, `or`, `not`, `->`, `<>`, `c ? x : y`: `&&`, `||`, `!`, `=>`, `!=`,\n  \
`if(c, x, y)`\n\
- a chain of comparisons: `0 <= n && n <= 3`\n\
- a bracket or a semicolon too few: at the first token that can't follow, often\n  \
in a line below: look at what the lines above it opened\n\
- no arguments in brackets: `X`\n\
- no `pbes`: `pbes` before the first equation\n\
- a text to `verify`, a module to `solve`: texts go to `solve`, `game`,\n  \
`certificate`, `solution`, `explain`, `compile`, modules to `verify`, `list`,\n  \
`solve-code`\n\
Common mistakes in a model, and what to write instead:\n\
- `(n + 1) * 2 == m` in a formula: `val((n + 1) * 2 == m)`\n\
- `[a] mu X . f`: `[a] (mu X . f)`\n\
- `p: Place; n: Nat;` after `state`: `p: Place, n: Nat;`, one list\n\
- `state b: Bool = true`: the first values after `init`, in the order of `state`\n\
- `init p := idle, q := idle`, `init p = idle`: `init idle, idle`: the values\n  \
alone\n\
- `step a: .. ; step b: ..`: `step` once, then each step by its name\n\
- `a: b => b := !b`, `a: b := !b`: `a: b -> b := !b`, `a: true -> b := !b`: a\n  \
guard, then `->`\n\
- `a: b -> ;`: `a: b -> skip`\n\
- `a: val(b) -> ..`: `a: b -> ..`: a guard is data, without `val`\n\
- `[a && b] f`, `[a, b] f`, `[not a] f`: `[a || b] f`, `[!a] f`: a set of steps\n  \
has names, `true`, `!`, `||` and brackets\n\
- `[true*] f`, `<a*> f`: `nu X . f && [true] X`, `mu X . f || <a> X`\n\
- `x[i]`, `x[i] := e`: `x(i)`, `x(i) := e`\n\
- `[] p`, `<> p`, `G p`, `p U q`: no LTL: `always p`, `inevitably p`,\n  \
`p until q`, and the formulas of the patterns\n\
- `always possibly p`, `p until q until r`: `always (possibly p)`,\n  \
`p until (q until r)`\n\
- `always == 1`, where `always` is a state variable: `val(always == 1)`\n\
- `n: 1..3`: `sort Id = 1 .. 3;`, and `n: Id`\n\
- `x := 1; y := 2`, `x := 1 && y := 2`: `x := 1, y := 2`: a comma between\n  \
assignments\n\
- `x++`, `x += 1`, `x' = x + 1`: `x := x + 1`\n\
- `if b then x := 1`, `x := b ? 1 : 0`: a step for each case, or\n  \
`x := if(b, 1, 0)`\n\
- `forall j != i . p`, `exists j in Id . p`: `forall j: Id . j != i => p`,\n  \
`exists j: Id . p`\n\
- `const n: Nat = 3`, `model lock`, `process P`, `rule try`: `const n = 3;`\n  \
before the sorts; a model has no name, and all steps follow one `step`\n\
- `free()`, `no_deadlock()`: `free`, `no_deadlock`: no brackets without\n  \
arguments\n\
- `AG p`, `AF p`, `EF p`, `A[] p`, `A<> p`, `E<> p`, `p --> q`: neither CTL nor\n  \
UPPAAL's syntax: `always p`, `inevitably p`, `possibly p`, `p leads_to q`\n\
- `eventually p`, `never p`: `inevitably p`, `always !p`\n\
- a model to `solve`, a text, Promela or mCRL2 to `check`:\n  \
`pbsolve translate .. | pbsolve solve`; a model in the language of models\n";

pub const P03_WORDS: &str = "P03: a number above 2^62\n\
What to do: use smaller numbers; only comparisons matter to most models\n\
$ echo 'pbes nu X = val(4611686018427387905 > 0); init X;' | pbsolve solve\n\
P03 line 1 column 17\n";

pub const P04_WORDS: &str = "P04: brackets, argument lists, quantifiers, ! or unary - nested \
more than 64\n  \
deep, or more than 8,192 operators with two operands in one equation or in\n  \
init\n\
In a model also: [, <, the bracket of fair, mu, nu, count, and in a term or a\n  \
formula forall and exists open a level each; the assignments of a step may be\n  \
8,192 with one for each tuple of a forall's values; a step, a definition, init\n  \
and a property may have 8,192 operators each, and so may a term or a formula\n  \
with its quantifiers and definitions written out, with those of each index\n  \
that isn't written as a value, also where it is decided, and the negation of a\n  \
property, in which a ! stands before each test, and which refuses that\n  \
property alone (NAME refused P04); definitions that use others may nest 200\n  \
levels. Place: the token; the use, the quantifier, the assignment's forall or\n  \
the operator that passes it\n\
What to do: split the equation: give a part an equation of its own with the same\n  \
sign, directly after it\n\
$ python3 -c \"print('pbes nu X = ' + 'X && ' * 8193 + 'X; init X;')\" | pbsolve solve\n\
P04 line 1 column 40975\n";

pub const P05_WORDS: &str = "P05: a line that begins %range and isn't a name and two bounds in \
order, each\n  \
within 32 bits\n\
What to do: write %range NAME LO HI with nothing after it\n\
$ printf '%%range Nat 3\\npbes nu X = X; init X;' | pbsolve solve\n\
P05 line 1 column 1\n\
Common mistakes, and what to write instead:\n\
- `%range Nat 0..3`, `%range Nat 0 3 % small`, `+1` as a bound:\n  \
`%range Nat 0 3`, with nothing after it\n";

pub const T01_WORDS: &str = "T01: a name that isn't declared; in a formula also a Boolean, a \
recogniser or a\n  \
function outside val(..). Place: the name\n\
In a model also: an unknown step; an assignment to what is no state variable; in\n  \
data a name that nothing declares or that a definition or a constant further\n  \
down has; in init and in a set of steps a definition that depends on the\n  \
state; also the name of an equation in the property's text or of a fixpoint\n  \
that isn't around. Place: the name\n\
What to do: declare it, or put val(..) round it; a recogniser needs its argument\n\
$ echo 'pbes nu X = Z; init X;' | pbsolve solve\n\
T01 line 1 column 13\n\
Common mistakes, and what to write instead:\n\
- a declared Boolean as a formula: `val(p) && X(p)`: in a formula a name alone\n  \
is a predicate variable\n\
- a function as a formula: `(val(b) => X(b)) && (val(!b) => X(!b))`\n\
Common mistakes in a model, and what to write instead:\n\
- `tt`, `ff`, as in `<tt> tt`: `true`, `false`\n\
- a fixpoint's name that no fixpoint around has: the name after `mu` or `nu`,\n  \
spelled as there\n\
- `at := idle`, `at(_) := idle`, where `at` is an array:\n  \
`forall c: C . at(c) := idle`\n";

pub const T02_WORDS: &str = "T02: a name declared twice in its name space (sorts; predicate \
variables;\n  \
enumerators and recognisers; recognisers and function names; a list of\n  \
variables), or a second range for one sort. Place: the later name; column 1 of\n  \
the range line\n\
In a model also: two steps, two properties, two state variables or definitions\n  \
of one name; two assignments to one variable, or with the same index; an\n  \
assignment's variable that occurs in no index; an enumerator, recogniser,\n  \
state variable, definition or variable with a constant's name; a definition\n  \
with an enumerator's; a line %range of a sort with bounds; a step's own\n  \
variable, a parameter, an index, a fixpoint or a formula's quantifier with the\n  \
name of a state variable or definition, also where a word is used that is\n  \
one's name; names of elements or steps that are one when they are written out,\n  \
as x'1 beside x(i: Id); where the model is written out or has more than eight\n  \
variables, a state variable with the name of an enumerator, and _ as the name\n  \
of a definition or of a variable other than a quantifier's in data; where it\n  \
has more than eight and isn't written out, a step's own variable with the name\n  \
of an enumerator. Place: the later name; that name\n\
What to do: rename; mCRL2 lets two structs share an enumerator, here they can't\n\
$ echo 'pbes nu X = X; nu X = X; init X;' | pbsolve solve\n\
T02 line 1 column 19\n\
Common mistakes in a model, and what to write instead:\n\
- a fixpoint `p`, where `p` is a state variable: another name: fixpoints mostly\n  \
have capital letters\n";

pub const T03_WORDS: &str = "T03: an unknown sort, an alias without end, or a range for \
something that is no\n  \
integer sort. Place: the sort's name; the alias; column 1 of the range line\n\
What to do: declare the sort by sort\n\
$ echo 'sort A = A; pbes nu X = X; init X;' | pbsolve solve\n\
T03 line 1 column 6\n";

pub const T04_WORDS: &str = "T04: a wrong kind: == of two structs, order on Booleans or \
enumerators, a number\n  \
for a Bool. Place: the operator, quantifier, function or val; an argument's\n  \
first token\n\
In a model also: a constant or a bound that is no number of 32 bits; a guard\n  \
that is no Bool, an operand of its &&, ||, => or ! that is none; a test that\n  \
is none; a value of another kind than its variable, index or parameter. Place:\n  \
the step's name, the connective; the test; the value's first token\n\
What to do: compare like with like; write val(..) round data in formulas\n\
$ echo 'pbes nu X = val(true < false); init X;' | pbsolve solve\n\
T04 line 1 column 22\n\
Common mistakes, and what to write instead:\n\
- an argument too few, or two exchanged: T08 is reported at the name, T04 at the\n  \
argument\n";

pub const T05_WORDS: &str = "T05: an integer sort of a variable without a range, or a range \
that begins below\n  \
its sort's least value. Place: the sort's name; column 1 of the range line\n\
What to do: add %range NAME LO HI\n\
$ echo 'pbes nu X(n: Nat) = X(n); init X(0);' | pbsolve solve\n\
T05 line 1 column 14\n\
Common mistakes, and what to write instead:\n\
- `  %range Slot 0 7` with a blank before it, `% range`, `%Range`, `%rnage`:\n  \
`%range` at the first column, in small letters: all else is a comment, here as\n  \
to every reader, and the sort has its target's range\n";

pub const T06_WORDS: &str = "T06: a predicate variable under an odd number of negations; the \
left side of =>\n  \
is one. Place: the predicate variable\n\
In a model also: under an odd number of negations: a fixpoint's variable, a\n  \
fixpoint, or a modality whose operand is neither true nor false. Place: the\n  \
name; mu or nu; [ or <\n\
What to do: brackets round each guard => step? else push the negation inwards;\n  \
negate data instead; for the opposite question see \"The opposite question\" in\n  \
docs/MANUAL.md\n\
$ echo 'pbes mu X = !X; init X;' | pbsolve solve\n\
T06 line 1 column 14\n\
Common mistakes, and what to write instead:\n\
- no brackets round `guard => step`: `(val(b) => X(b)) && (val(!b) => X(!b))`:\n  \
`=>` binds less than `&&`, so the first step is on the left of the second `=>`\n\
Common mistakes in a model, and what to write instead:\n\
- `!<a> f`, `<a> f => g`: `[a] !f`, `[a] !f || g`\n\
- `always p => inevitably q`: `always (p => inevitably q)`: brackets round what\n  \
follows `always`, also in `always p && q`, which is accepted as\n  \
`(always p) && q`\n";

pub const T07_WORDS: &str = "T07: a predicate variable in data. Place: its name\n\
In a model also: the variable of a fixpoint around, in data, if no enumerator or\n  \
quantifier's variable has the name. Place: its name\n\
What to do: take it out of val(..)\n\
$ echo 'pbes nu X = val(X); init X;' | pbsolve solve\n\
T07 line 1 column 17\n";

pub const T08_WORDS: &str = "T08: a wrong count of arguments. Place: the name\n\
In a model also: too few or too many values after init; an array without an\n  \
index, or with too few or too many; as many arguments of a definition, or\n  \
values of a step in a set. Place: init; the name\n\
What to do: count them\n\
$ echo 'pbes nu X(b: Bool) = X; init X(true);' | pbsolve solve\n\
T08 line 1 column 22\n\
Common mistakes, and what to write instead:\n\
- an argument too few, or two exchanged: T08 is reported at the name, T04 at the\n  \
argument\n\
Common mistakes in a model, and what to write instead:\n\
- `line == free`, where `line` is an array: `line(c) == free`, for a c\n\
- `at := idle`, `at(_) := idle`, where `at` is an array:\n  \
`forall c: C . at(c) := idle`\n";

pub const T09_WORDS: &str = "T09: a divisor that may be 0 or less by its range; a term's range \
is computed by\n  \
the table in docs/MODULES.md, \"What the verifier knows\". Place: div or mod\n\
What to do: give the variable a range from 1, or write max(n, 1)\n\
$ printf '%%range Int 0 3\\npbes mu X(n: Int) = val(4 div n == 2) || X(n); init X(1);' | \
pbsolve solve\n\
T09 line 2 column 27\n";

pub const T10_WORDS: &str = "T10: a term that may leave 2^62 by its ranges, by the same table. \
Place: the\n  \
operator or function\n\
What to do: narrow the ranges\n\
$ printf '%%range Int 2147483000 2147483647\\npbes nu X(n: Int) = val(n * n * n > 0) && X(n); \
init X(2147483000);' | pbsolve solve\n\
T10 line 2 column 31\n";

pub const T11_WORDS: &str = "T11: an argument of init outside its range. Place: its first \
token\n\
In a model also: an index that may leave its sort, or a value in a set of steps\n  \
that does; bounds of a sort that aren't in order; of values of init that are\n  \
put into one number, and of which none is written outside its range, the first\n  \
that is computed. Place: its first token\n\
What to do: widen the range, or correct init\n\
$ printf '%%range Int 0 9\\npbes nu X(n: Int) = X(n); init X(10);' | pbsolve solve\n\
T11 line 2 column 34\n\
Common mistakes in a model, and what to write instead:\n\
- `x(i + 1)`, where i may be the last: a test before it, `i < 3 && x(i + 1)`, or\n  \
the index by a variable of the step's own\n";

pub const T12_WORDS: &str = "T12: a limit is passed; which one, the place says:\n\
- more than 64 equations (the 65th equation's name): join equations\n\
- more than 8 parameters (the ninth parameter's name): join two small ones into\n  \
one range\n\
- more than 255 structs, or 255 enumerators in one (the 256th struct's, or\n  \
enumerator's, name): use a range\n\
- a predicate variable's or enumerator's name of more than 64 bytes (that name):\n  \
shorten it\n\
- more than 2^22 instances, of all equations together; more than 2^62 with\n  \
--reached (the equation with which they are too many): --reached, or narrow\n  \
ranges\n\
In a model also: more than 1,024 assignments in a step; written out, more than\n  \
8,192 steps, of which one that stays whole counts as one, or 64 state\n  \
variables, by their elements; of a property's text, more than 64 equations or\n  \
2^62 instances; more than 2^62 states. Place: the step's, the variable's name;\n  \
the property's name; init\n\
What to do: see \"Limits\" in docs/MANUAL.md\n\
$ printf '%%range Int 0 4194304\\npbes nu X(n: Int) = X(n); init X(0);' | pbsolve solve\n\
T12 line 2 column 9\n";

pub const T13_WORDS: &str = "T13: a quantifier in data below a comparison, arithmetic, if, or \
in an argument.\n  \
Place: the quantifier\n\
What to do: take the quantifier out into the formula\n\
$ echo 'pbes nu X = val((forall b: Bool . b) == true); init X;' | pbsolve solve\n\
T13 line 1 column 18\n";
