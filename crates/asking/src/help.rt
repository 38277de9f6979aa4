// What `ask -h` says: a screenful, at most 24 lines of 80.

const TEXT: &str = "ask reads SQL queries, given as tokens, one query a line, and answers each.
Usage: ask [-v | -h] < LINES

A line:   KIND[.TEXT] KIND[.TEXT] ..
          52 is SELECT, 17 is STAR, 1.8 is the name numbered 8; docs/01-scope.md
          has all kinds. `52 17` is SELECT *.
      or  table=N outk=N outt=N kinds: K K .. texts: T T ..
          says how long the node table and the outputs are, and gives each list.

The answer to a line is a line of numbers:
  0 COUNT : CODE,DETAIL,CHILDREN,SIZE .. : KIND[.TEXT] KIND[.TEXT] ..
                                           accepted: its records and its
                                           canonical writing
  NUMBER PLACE                             refused; tokens count from 0
  R NUMBER PLACE W NUMBER PLACE            reader's and writer's, after table=
  ? at BYTE                                it has neither form; what is wrong is
                                           said on standard error
Each line is answered, whatever became of those before it.

  -v  answers in words: a refusal with its reason, or the reading as a tree and
      the writing. Absent parts are left out; #8 is text number 8.
  -h  says this.

The exit status is always 0: the answers say which lines were refused.
";

pub fn tell(out: &impl Print) {
    let _ = out.write_all(TEXT.as_bytes());
}

// An argument that is none of ours.
pub fn point(errors: &impl Print) {
    let _ = errors.println("ask: the options are -v and -h; ask -h says more");
}
