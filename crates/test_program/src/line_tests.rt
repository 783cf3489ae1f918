// Requests that come a line each: what each line is answered with, in its place, and how all ends.
// The texts are written out by hand.
use crate::outputs::What;
use crate::streams::{NOTHING, Reads, WHOLE, Wrote};
use crate::texts::{ADD, RECEIPT_LINE};
use crate::worlds::{Step, passes, wrong};

// The first tile and the second one; the first again gets its receipt again.
const TWO: &str =
    "{\"at\":\"2024-05-01T08:00:00.000Z\",\"command\":\"add\",\"data\":\"41\",\"identity\":\"00000000-0000-4000-8000-000000000001\",\"kind\":\"tile\",\"package\":\"a0000000-0000-4000-8000-000000000000\",\"request\":\"90000000-0000-4000-8000-000000000001\",\"column\":3,\"row\":3,\"zoom\":2}\n{\"at\":\"2024-05-01T08:00:00.000Z\",\"command\":\"add\",\"data\":\"41\",\"identity\":\"00000000-0000-4000-8000-000000000002\",\"kind\":\"tile\",\"package\":\"a0000000-0000-4000-8000-000000000000\",\"request\":\"90000000-0000-4000-8000-000000000002\",\"column\":2,\"row\":3,\"zoom\":2}\n";

const SECOND_ENDS: &str =
    "\"seq\":2,\"tiles\":1,\"to\":\"a0000000-0000-4000-8000-000000000000\"}\n";

// A request for an identity that is taken, in the middle.
const REFUSED: &str =
    "{\"at\":\"2024-05-01T08:00:00.000Z\",\"command\":\"add\",\"data\":\"41\",\"identity\":\"00000000-0000-4000-8000-000000000001\",\"kind\":\"tile\",\"package\":\"a0000000-0000-4000-8000-000000000000\",\"request\":\"90000000-0000-4000-8000-000000000001\",\"column\":3,\"row\":3,\"zoom\":2}\n{\"at\":\"2024-05-01T08:00:00.000Z\",\"command\":\"add\",\"data\":\"41\",\"identity\":\"00000000-0000-4000-8000-000000000001\",\"kind\":\"tile\",\"package\":\"a0000000-0000-4000-8000-000000000000\",\"request\":\"90000000-0000-4000-8000-000000000003\",\"column\":1,\"row\":3,\"zoom\":2}\n{\"at\":\"2024-05-01T08:00:00.000Z\",\"command\":\"add\",\"data\":\"41\",\"identity\":\"00000000-0000-4000-8000-000000000001\",\"kind\":\"tile\",\"package\":\"a0000000-0000-4000-8000-000000000000\",\"request\":\"90000000-0000-4000-8000-000000000001\",\"column\":3,\"row\":3,\"zoom\":2}";

const REFUSED_TOLD: &str =
    "{\"at\":\"2024-05-01T08:00:00.000Z\",\"bytes\":1,\"from\":\"\",\"items\":1,\"line\":\"add a0000000-0000-4000-8000-000000000000 00000000-0000-4000-8000-000000000001 tile 1 b363ee0ecc9cf61b12ecdafd75dca2779729b4fcc5f1bd718c33aad2c94af4f8\",\"links\":0,\"media\":0,\"request\":\"90000000-0000-4000-8000-000000000001\",\"rows\":0,\"seq\":1,\"tiles\":1,\"to\":\"a0000000-0000-4000-8000-000000000000\"}\n{\"name\":\"IdentityUsed\",\"refusal\":6}\n{\"at\":\"2024-05-01T08:00:00.000Z\",\"bytes\":1,\"from\":\"\",\"items\":1,\"line\":\"add a0000000-0000-4000-8000-000000000000 00000000-0000-4000-8000-000000000001 tile 1 b363ee0ecc9cf61b12ecdafd75dca2779729b4fcc5f1bd718c33aad2c94af4f8\",\"links\":0,\"media\":0,\"request\":\"90000000-0000-4000-8000-000000000001\",\"rows\":0,\"seq\":1,\"tiles\":1,\"to\":\"a0000000-0000-4000-8000-000000000000\"}\n";

// Lines that are none, and empty ones, in the middle.
const BAD: &str =
    "{\"at\":\"2024-05-01T08:00:00.000Z\",\"command\":\"add\",\"data\":\"41\",\"identity\":\"00000000-0000-4000-8000-000000000001\",\"kind\":\"tile\",\"package\":\"a0000000-0000-4000-8000-000000000000\",\"request\":\"90000000-0000-4000-8000-000000000001\",\"column\":3,\"row\":3,\"zoom\":2}\n\n{}\n\r\n[\n{\"at\":\"2024-05-01T08:00:00.000Z\",\"command\":\"add\",\"data\":\"41\",\"identity\":\"00000000-0000-4000-8000-000000000001\",\"kind\":\"tile\",\"package\":\"a0000000-0000-4000-8000-000000000000\",\"request\":\"90000000-0000-4000-8000-000000000001\",\"column\":3,\"row\":3,\"zoom\":2}\n";

const BAD_TOLD: &str =
    "{\"at\":\"2024-05-01T08:00:00.000Z\",\"bytes\":1,\"from\":\"\",\"items\":1,\"line\":\"add a0000000-0000-4000-8000-000000000000 00000000-0000-4000-8000-000000000001 tile 1 b363ee0ecc9cf61b12ecdafd75dca2779729b4fcc5f1bd718c33aad2c94af4f8\",\"links\":0,\"media\":0,\"request\":\"90000000-0000-4000-8000-000000000001\",\"rows\":0,\"seq\":1,\"tiles\":1,\"to\":\"a0000000-0000-4000-8000-000000000000\"}\nrefused: body\nrefused: body\n{\"at\":\"2024-05-01T08:00:00.000Z\",\"bytes\":1,\"from\":\"\",\"items\":1,\"line\":\"add a0000000-0000-4000-8000-000000000000 00000000-0000-4000-8000-000000000001 tile 1 b363ee0ecc9cf61b12ecdafd75dca2779729b4fcc5f1bd718c33aad2c94af4f8\",\"links\":0,\"media\":0,\"request\":\"90000000-0000-4000-8000-000000000001\",\"rows\":0,\"seq\":1,\"tiles\":1,\"to\":\"a0000000-0000-4000-8000-000000000000\"}\n";

// One request over several lines, with more behind it, and with another.
const PRETTY: &str =
    "{\n\"at\":\"2024-05-01T08:00:00.000Z\",\n\"command\":\"add\",\n\"data\":\"41\",\n\"identity\":\"00000000-0000-4000-8000-000000000001\",\n\"kind\":\"tile\",\n\"package\":\"a0000000-0000-4000-8000-000000000000\",\n\"request\":\"90000000-0000-4000-8000-000000000001\",\n\"column\":3,\n\"row\":3,\n\"zoom\":2}\n\n";

const PRETTY_TWO: &str =
    "{\n\"at\":\"2024-05-01T08:00:00.000Z\",\n\"command\":\"add\",\n\"data\":\"41\",\n\"identity\":\"00000000-0000-4000-8000-000000000001\",\n\"kind\":\"tile\",\n\"package\":\"a0000000-0000-4000-8000-000000000000\",\n\"request\":\"90000000-0000-4000-8000-000000000001\",\n\"column\":3,\n\"row\":3,\n\"zoom\":2}\n{\"at\":\"2024-05-01T08:00:00.000Z\",\"command\":\"add\",\"data\":\"41\",\"identity\":\"00000000-0000-4000-8000-000000000001\",\"kind\":\"tile\",\"package\":\"a0000000-0000-4000-8000-000000000000\",\"request\":\"90000000-0000-4000-8000-000000000001\",\"column\":3,\"row\":3,\"zoom\":2}\n";

// The reader fails behind the first line.
const ONE_LINE: &str =
    "{\"at\":\"2024-05-01T08:00:00.000Z\",\"command\":\"add\",\"data\":\"41\",\"identity\":\"00000000-0000-4000-8000-000000000001\",\"kind\":\"tile\",\"package\":\"a0000000-0000-4000-8000-000000000000\",\"request\":\"90000000-0000-4000-8000-000000000001\",\"column\":3,\"row\":3,\"zoom\":2}\n";

const ONE_TOLD: &str =
    "{\"at\":\"2024-05-01T08:00:00.000Z\",\"bytes\":1,\"from\":\"\",\"items\":1,\"line\":\"add a0000000-0000-4000-8000-000000000000 00000000-0000-4000-8000-000000000001 tile 1 b363ee0ecc9cf61b12ecdafd75dca2779729b4fcc5f1bd718c33aad2c94af4f8\",\"links\":0,\"media\":0,\"request\":\"90000000-0000-4000-8000-000000000001\",\"rows\":0,\"seq\":1,\"tiles\":1,\"to\":\"a0000000-0000-4000-8000-000000000000\"}\nrefused: body\n";

// Two lines, one without its end, a request over several lines, and two that are none together.
#[test]
fn lines_that_are_requests(rt: HostRuntime) {
    let steps = [
        Step::Writes(
            What::AppliesEach("", Reads::Whole),
            WHOLE,
            "1 refused: body\n||",
            NOTHING,
        ),
        Step::Writes(
            What::AppliesEach("\n", Reads::Whole),
            WHOLE,
            "1 refused: body\n||",
            NOTHING,
        ),
        Step::Writes(
            What::AppliesEach(PRETTY_TWO, Reads::Whole),
            WHOLE,
            "1 refused: body\n||",
            NOTHING,
        ),
        Step::Holds("0 0 0 0 0"),
        Step::Writes(
            What::AppliesEach(ADD, Reads::Whole),
            WHOLE,
            "0 ||",
            Wrote::All(RECEIPT_LINE),
        ),
        Step::Writes(
            What::AppliesEach(PRETTY, Reads::Whole),
            WHOLE,
            "0 ||",
            Wrote::All(RECEIPT_LINE),
        ),
        Step::Holds("1 0 0 0 1"),
        Step::Writes(
            What::AppliesEach(TWO, Reads::Whole),
            WHOLE,
            "0 ||",
            Wrote::Ends(RECEIPT_LINE, SECOND_ENDS),
        ),
        Step::Holds("2 0 0 0 2"),
        Step::Writes(
            What::AppliesEach(ONE_LINE, Reads::Whole),
            WHOLE,
            "0 ||",
            Wrote::All(RECEIPT_LINE),
        ),
    ];
    passes(&rt, wrong(rt.alloc(), steps.as_slice()));
}

// What is refused or is no request is told in its place, and the next line goes on; a writer that fails ends it.
#[test]
fn lines_that_end_otherwise(rt: HostRuntime) {
    let steps = [
        Step::Writes(
            What::AppliesEach(ADD, Reads::Fails(WHOLE)),
            WHOLE,
            "1 refused: body\n||",
            NOTHING,
        ),
        Step::Holds("0 0 0 0 0"),
        Step::Writes(
            What::AppliesEach(ONE_LINE, Reads::Fails(WHOLE)),
            WHOLE,
            "1 ||",
            Wrote::All(ONE_TOLD),
        ),
        Step::Writes(
            What::AppliesEach(REFUSED, Reads::Whole),
            WHOLE,
            "1 ||refusal 6 IdentityUsed",
            Wrote::All(REFUSED_TOLD),
        ),
        Step::Writes(
            What::AppliesEach(BAD, Reads::Whole),
            WHOLE,
            "1 ||",
            Wrote::All(BAD_TOLD),
        ),
        Step::Holds("1 0 0 0 1"),
        Step::Writes(
            What::AppliesEach(BAD, Reads::Whole),
            370,
            "3 |store: StoreFault\n|",
            Wrote::Front(BAD_TOLD, 370),
        ),
    ];
    passes(&rt, wrong(rt.alloc(), steps.as_slice()));
}
