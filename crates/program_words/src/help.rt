//! How the program is called, explained to a person.

const COMMANDS: &'static str = "usage: leireg COMMAND
  lines   answers each line of the standard input
  serve   answers requests over HTTP
  apply   patches a golden copy by a delta
  search  finds the names in a golden copy that have certain words
  mirror  keeps the tables of a register up to date by its copies and deltas
  group   reports who belongs to the group of an entity
  check   tells whether a text is a Legal Entity Identifier
  digits  makes the check digits of a Legal Entity Identifier
  demo    makes up a register, and tells what became of it
example: leireg lines --help";

const LINES: &'static str = "usage: leireg lines [--store PATH]
answers each line of the standard input: ACCREDIT OFFICE, UPLOAD OFFICE NUMBER BODY, KEPT OFFICE NUMBER,
PUBLISH NUMBER, SHOW LEI, COPY TABLE FORM, DELTA BASE TABLE FORM or STATUS
  --store PATH  keeps the register in the file PATH; without it the register is in memory
example: leireg lines --store register.db";

const SERVE: &'static str =
    "usage: leireg serve --port P --workers W [--connections N] [--store PATH]
answers requests over HTTP on 127.0.0.1, and tells its address on the standard error
  --port P         the port, from 0 to 65535; with 0 one that is free
  --workers W      how many connections are served at once, from 1 to 64
  --connections N  each worker ends after N connections, from 1 to 4294967295; without it after 4294967295
  --store PATH     keeps the register in the file PATH; without it the register is in memory
example: leireg serve --port 8080 --workers 1";

const APPLY: &'static str = "usage: leireg apply TABLE FORM COPY DELTA
writes the golden copy that the one in the file COPY becomes by the delta in the file DELTA
  TABLE  lei, rr or repex
  FORM   csv or json
example: leireg apply lei csv copy.csv delta.csv";

const SEARCH: &'static str = "usage: leireg search FORM COPY
reads the golden copy of lei in the file COPY, and answers each line of the standard input: FIND PAGE WORDS, or
TAKE N with the N bytes of a delta after it
  FORM  csv or json
example: leireg search csv copy.csv";

const MIRROR: &'static str = "usage: leireg mirror
takes golden copies and deltas in JSON, in any order, and shows all three tables of one publication; it answers each
line of the standard input: COPY TABLE N or DELTA TABLE N with the N bytes of a copy or a delta after it, or SHOW TABLE
example: leireg mirror";

const GROUP: &'static str = "usage: leireg group WHO FORM LEICOPY RRCOPY
reports who belongs to the group of the entity with the LEI WHO, and where reported and computed parents disagree,
by the golden copies of lei and rr in the files LEICOPY and RRCOPY; with ALL as WHO all that disagree
  FORM  csv or json
example: leireg group 506700GE1G29325QX363 csv lei.csv rr.csv";

const CHECK: &'static str = "usage: leireg check CODE
tells whether CODE is a Legal Entity Identifier
example: leireg check 5493001KJTIIGC8Y1R12";

const DIGITS: &'static str = "usage: leireg digits TEXT
makes the check digits of TEXT, the first 18 characters of a Legal Entity Identifier
example: leireg digits 5493001KJTIIGC8Y1R";

const DEMO: &'static str = "usage: leireg demo N
makes up a register, publishes it, and tells what became of it
  N  how many records it has, from 2 to 100000
example: leireg demo 1000";

/// How the command with this name is called: its usage, each option with its range, and an example, in lines. The last
/// line has no line end. For a word that names no command, the list of commands.
pub fn help_of(name: &str) -> &'static str {
    match name {
        "lines" => LINES,
        "serve" => SERVE,
        "apply" => APPLY,
        "search" => SEARCH,
        "mirror" => MIRROR,
        "group" => GROUP,
        "check" => CHECK,
        "digits" => DIGITS,
        "demo" => DEMO,
        _ => COMMANDS,
    }
}
