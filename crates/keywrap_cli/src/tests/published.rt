//! The published vectors by the definitions only: no code runs.

ghost use Rattle.std.specs.List.{AllByRecursion};
ghost use Rattle.keywrap_cli.specs.VectorReport.{IsRight};
ghost use Rattle.test_vectors.specs.Published.{published_vectors};

// A law: the wrapped keys of RFC 3394 and RFC 5649 are wrappings by the definitions, and the blocks
// of FIPS 197 are encrypted by them. The check computes AES for each step of each wrapping.
fn published_vectors_are_right()
    ensures { AllByRecursion IsRight published_vectors }
{}

#[test]
fn definitions_give_the_published_vectors() {
    published_vectors_are_right();
}
