//! Worked runs. The expected texts were found by hand.
use crate::*;
use shelf_io::{MemoryShelf, MemorySink};
use std::alloc::Global;
use std::test::Fail;

/// A command, the text of the file Q, and what the run puts.
#[derive(Drop)]
struct Case {
    command: &'static str,
    queries: &'static str,
    status: u8,
    output: &'static str,
    line: &'static str,
}

/// Presentations by their names.
const FILES: [(&str, &str); 12] = [
    (
        "A",
        "subalgebra 1\nfield 101\nvars x y\nweights 1 1\norder lex\nideal 0\ngenerators 2\nx + y\nx*y\nend\n",
    ),
    // the second generator is the square of the first
    (
        "C",
        "subalgebra 1\nfield 2\nvars x y\nweights 1 1\norder lex\nideal 0\ngenerators 2\nx + y\nx^2 + y^2\nend\n",
    ),
    // all x*y^i lead members
    (
        "E",
        "subalgebra 1\nfield 101\nvars x y\nweights 1 1\norder lex\nideal 0\ngenerators 3\nx + y\nx*y\nx*y^2\nend\n",
    ),
    (
        "F",
        "subalgebra 1\nfield 101\nvars x y\nweights 1 1\norder lex\nideal 1\nx^2 - y^2\ngenerators 1\nx + y\nend\n",
    ),
    (
        "H",
        "subalgebra 1\nfield 101\nvars x\nweights 1\norder lex\nideal 0\ngenerators 2\nx^2\nx^3\nend\n",
    ),
    (
        "K",
        "subalgebra 1\nfield 101\nvars x y z\nweights 1 1 1\norder lex\nideal 0\ngenerators 1\nx*z + y^2\nend\n",
    ),
    // x*z is below y^2 in reverse lex
    (
        "L",
        "subalgebra 1\nfield 101\nvars x y z\nweights 1 1 1\norder revlex\nideal 0\ngenerators 1\nx*z + y^2\nend\n",
    ),
    // a row puts b above a
    (
        "O",
        "subalgebra 1\nfield 7\nvars a b\nweights 2 3\norder 0 1 ; lex\nideal 0\ngenerators 1\na^3 + b^2\nend\n",
    ),
    // 3 is x in the field of 9 elements, whose inverse is x, since x*x is 2 - and 2*x is 6
    (
        "W",
        "# W\n\n subalgebra\t1\nfield 9\r\nvars  x y\nweights 1 01\norder lex\nideal 0\ngenerators 1\n3*x + 3*y\n\nend",
    ),
    (
        "N",
        "subalgebra 1\nfield 101\nvars x y\nweights 1 1\norder lex\nideal 0\ngenerators 1\nx + y^2\nend\n",
    ),
    (
        "I",
        "subalgebra 1\nfield 101\nvars x y\nweights 1 1\norder lex\nideal 1\n3\ngenerators 1\nx\nend\n",
    ),
    ("Y", ""),
];

const CASES: [Case; 26] = [
    Case {
        command: "complete A 2",
        queries: "",
        status: 0,
        output: "report 1\nbound 2\nbasis 2\n1 1 x : x + y\n2 2 x*y : x*y\nmark complete\nend\n",
        line: "",
    },
    Case {
        command: "complete A 2 last",
        queries: "",
        status: 0,
        output: "report 1\nbound 2\nbasis 2\n1 1 x : x + y\n2 2 x*y : x*y\nmark complete\nend\n",
        line: "",
    },
    Case {
        command: "complete C 2",
        queries: "",
        status: 0,
        output: "report 1\nbound 2\nbasis 1\n1 1 x : x + y\nmark complete\nend\n",
        line: "",
    },
    Case {
        command: "complete F 3",
        queries: "",
        status: 0,
        output: "report 1\nbound 3\nbasis 3\n1 1 x : x + y\n2 2 x*y : x*y + y^2\n3 3 x*y^2 : x*y^2 + y^3\n\
                 mark open\nend\n",
        line: "",
    },
    Case {
        command: "complete K 2",
        queries: "",
        status: 0,
        output: "report 1\nbound 2\nbasis 1\n1 2 x*z : x*z + y^2\nmark complete\nend\n",
        line: "",
    },
    Case {
        command: "complete L 2",
        queries: "",
        status: 0,
        output: "report 1\nbound 2\nbasis 1\n1 2 y^2 : y^2 + x*z\nmark complete\nend\n",
        line: "",
    },
    Case {
        command: "complete O 6",
        queries: "",
        status: 0,
        output: "report 1\nbound 6\nbasis 1\n1 6 b^2 : b^2 + a^3\nmark complete\nend\n",
        line: "",
    },
    Case {
        command: "complete W 1",
        queries: "",
        status: 0,
        output: "report 1\nbound 1\nbasis 1\n1 1 x : x + y\nmark complete\nend\n",
        line: "",
    },
    Case {
        command: "relations F 3",
        queries: "",
        status: 0,
        output: "relations 2\ns1^2 = 2*s2\ns1*s2 = 2*s3\n",
        line: "",
    },
    Case {
        command: "relations H 6",
        queries: "",
        status: 0,
        output: "relations 1\ns1^3 = s2^2\n",
        line: "",
    },
    Case {
        command: "ask A 3 Q",
        queries: "x^3 + y^3\nx\n7\n0\nx + y + x^2\n",
        status: 0,
        output: "member g1^3 + 98*g1*g2\nno 100*y\nmember 7\nmember 0\nno 100*y^2\n",
        line: "",
    },
    Case {
        command: "ask A 3 Q",
        queries: "",
        status: 0,
        output: "",
        line: "",
    },
    Case {
        command: "ask E 4 Q",
        queries: "x*y^4\nx^3*y^2 + x^2*y^3\n",
        status: 0,
        output: "beyond 5\nbeyond 5\n",
        line: "",
    },
    Case {
        command: "trial 1",
        queries: "",
        status: 0,
        output: "trial 1\nbound 3\nbasis 3\nmark complete\nend\n",
        line: "",
    },
    Case {
        command: "complete A 02",
        queries: "",
        status: 1,
        output: "",
        line: "error: usage\n",
    },
    Case {
        command: "complete A 15001",
        queries: "",
        status: 1,
        output: "",
        line: "error: usage\n",
    },
    Case {
        command: "complete A 2 st",
        queries: "",
        status: 1,
        output: "",
        line: "error: usage\n",
    },
    Case {
        command: "ask A 2 A",
        queries: "",
        status: 1,
        output: "",
        line: "error: usage\n",
    },
    Case {
        command: "trial 9",
        queries: "",
        status: 1,
        output: "",
        line: "error: usage\n",
    },
    Case {
        command: "",
        queries: "",
        status: 1,
        output: "",
        line: "error: usage\n",
    },
    Case {
        command: "relations Z 2",
        queries: "",
        status: 8,
        output: "",
        line: "error: missing Z\n",
    },
    Case {
        command: "ask A 2 R",
        queries: "",
        status: 8,
        output: "",
        line: "error: missing R\n",
    },
    Case {
        command: "complete N 2",
        queries: "",
        status: 2,
        output: "",
        line: "error: presentation line 8: NotHomogeneous\n",
    },
    Case {
        command: "complete I 2",
        queries: "",
        status: 2,
        output: "",
        line: "error: presentation line 7: UnitIdeal\n",
    },
    Case {
        command: "complete Y 2",
        queries: "",
        status: 2,
        output: "",
        line: "error: presentation line 1: Truncated\n",
    },
    Case {
        command: "ask A 2 Q",
        queries: "x\nx +\n",
        status: 4,
        output: "",
        line: "error: query line 2: PolySyntax\n",
    },
];

fn words_of_line(alloc: Global, line: &str) -> Result<WordList, Fail> {
    let mut words = WordList::new(alloc);
    for word in line.split_whitespace() {
        words.push(word)?;
    }
    Ok(words)
}

/// The presentations, and the queries of a case.
fn shelf_of(alloc: Global, case: &Case) -> Result<MemoryShelf, Fail> {
    let mut shelf = MemoryShelf::new(alloc);
    for (name, text) in FILES {
        shelf.put(name, text.as_bytes())?;
    }
    shelf.put("Q", case.queries.as_bytes())?;
    Ok(shelf)
}

/// Whether the run has the status and puts the texts, if this load and this put fail, each counted from 1.
fn agrees(alloc: Global, case: &Case, load: u64, put: u64) -> Result<bool, Fail> {
    let words = words_of_line(alloc, case.command)?;
    let mut shelf = shelf_of(alloc, case)?;
    shelf.fail_at(load)?;
    let mut out = MemorySink::new(alloc, 20, 4096)?;
    out.fail_at(put)?;
    let mut note = MemorySink::new(alloc, 5, 4096)?;
    let status = run(alloc, &words, &mut shelf, &mut out, &mut note);
    Ok(
        status == case.status
            && out.bytes() == case.output.as_bytes()
            && note.bytes() == case.line.as_bytes(),
    )
}

#[test]
fn runs_end_as_they_should(rt: HostRuntime) -> Result<(), Fail> {
    for case in &CASES {
        assert!(rt; agrees(rt.alloc(), case, 9, 99)?, "{}", case.command);
    }
    Ok(())
}

/// What a command does if a load fails, or the sink fails at its second put.
const FAILING: [(u64, u64, u8, &str, &str); 3] = [
    (1, 99, 5, "", "error: shelf\n"),
    (2, 99, 5, "", "error: shelf\n"),
    (9, 2, 6, "member g1^3 + 98*g1*", "error: sink\n"),
];

#[test]
fn failing_calls_end_the_run(rt: HostRuntime) -> Result<(), Fail> {
    for (load, put, status, output, line) in FAILING {
        let case = Case {
            command: "ask A 3 Q",
            queries: "x^3 + y^3\n",
            status,
            output,
            line,
        };
        assert!(rt; agrees(rt.alloc(), &case, load, put)?, "{line}");
    }
    Ok(())
}
