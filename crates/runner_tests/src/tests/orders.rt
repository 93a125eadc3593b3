//! Command lines, each a text of words separated by spaces.

use review_runner::{Order, OrderError};
use std::alloc::Global;
use std::test::Fail;

/// The parsed command line.
fn order(alloc: Global, line: &str) -> Result<Order, OrderError> {
    let words: Vec<&str> = line.split(' ').collect(alloc)?;
    review_runner::order(alloc, words.as_slice())
}

fn is_run(order: &Result<Order, OrderError>, name: &str, number: u64) -> bool {
    match order {
        Ok(Order::RunImage { image, steps }) => image.as_str() == name && *steps == number,
        _ => false,
    }
}

/// The command, its file and its steps.
#[rattlefmt::skip]
const RUNS: [(&str, &str, u64); 8] = [
    ("celbpf run-image a.img", "a.img", 10_000_000),
    ("celbpf run-image a.img --steps 5", "a.img", 5),
    ("celbpf run-image a.img --steps=0", "a.img", 0),
    ("celbpf run-image --steps 9 b.img", "b.img", 9),
    ("celbpf run-image a.img --steps 1000000000", "a.img", 1_000_000_000),
    ("celbpf run-image a.img --steps +7", "a.img", 7),
    ("celbpf run-image a.img --steps 007", "a.img", 7),
    ("celbpf run-image ", "", 10_000_000),
];

#[test]
fn words_that_are_taken(rt: HostRuntime) -> Result<(), Fail> {
    for &(line, name, number) in RUNS.iter() {
        assert!(rt; is_run(&order(rt.alloc(), line), name, number), "{line}");
    }
    Ok(())
}

fn is_refused(order: &Result<Order, OrderError>) -> bool {
    match order {
        Err(OrderError::InvalidArguments) => true,
        _ => false,
    }
}

/// Words that the program does not accept.
const REFUSED: [&str; 24] = [
    "celbpf",
    "celbpf fly a.img",
    "celbpf run-image",
    "celbpf run-image a.img b.img",
    "celbpf run-image a.img --steps 1000000001",
    "celbpf run-image a.img --steps -1",
    "celbpf run-image a.img --steps ",
    "celbpf run-image a.img --steps x",
    "celbpf run-image a.img --steps",
    "celbpf run-image a.img --steps 1 --steps 2",
    "celbpf run-image a.img --fast",
    "celbpf run-image a.img --reads 1",
    "celbpf debug",
    "celbpf debug a.img --steps 1",
    "celbpf debug a.img --review",
    "celbpf debug a.img --review r --review s",
    "celbpf debug a.img r",
    "celbpf asm a.txt",
    "celbpf asm a.txt a.img --steps 1",
    "celbpf list",
    "celbpf list a.img b.img",
    "celbpf --help",
    "celbpf run-image --help",
    "celbpf help",
];

#[test]
fn words_that_are_refused(rt: HostRuntime) -> Result<(), Fail> {
    for &line in REFUSED.iter() {
        assert!(rt; is_refused(&order(rt.alloc(), line)), "{line}");
    }
    Ok(())
}

fn is_assembly(order: &Result<Order, OrderError>) -> bool {
    match order {
        Ok(Order::Assemble { text, image }) => {
            text.as_str() == "a.txt" && image.as_str() == "a.img"
        }
        _ => false,
    }
}

fn is_listing(order: &Result<Order, OrderError>) -> bool {
    match order {
        Ok(Order::List { image }) => image.as_str() == "a.img",
        _ => false,
    }
}

/// Whether this is a session on the roots of a review and of params in these files.
fn is_session(order: &Result<Order, OrderError>, review: &str, params: &str) -> bool {
    match order {
        Ok(Order::Debug { image, documents }) => {
            image.as_str() == "a.img"
                && is_name(&documents.review, review)
                && documents.namespace.is_none()
                && is_name(&documents.params, params)
        }
        _ => false,
    }
}

/// Whether this is the name of a file; the empty name means none.
fn is_name(given: &Option<String>, name: &str) -> bool {
    match given {
        Some(given) => given.as_str() == name,
        None => name.is_empty(),
    }
}

#[test]
fn sessions_on_documents(rt: HostRuntime) -> Result<(), Fail> {
    let alone = order(rt.alloc(), "celbpf debug a.img");
    assert!(rt; is_session(&alone, "", ""));
    let on_both = order(rt.alloc(), "celbpf debug --params p a.img --review=r");
    assert!(rt; is_session(&on_both, "r", "p"));
    Ok(())
}

#[test]
fn texts_and_listings(rt: HostRuntime) -> Result<(), Fail> {
    assert!(rt; is_assembly(&order(rt.alloc(), "celbpf asm a.txt a.img")));
    assert!(rt; is_listing(&order(rt.alloc(), "celbpf list a.img")));
    Ok(())
}
