// Published results that are not only computed but proved.
ghost use Rattle.std.specs.Prelude.{◌≡◌};
ghost use Rattle.vectors.specs.Published.{Published};

/// How many of the published results are proved of the definitions that the tag functions are proved to follow.
pub fn proved_results() -> u32
    ensures count { result ≡ 12 }
    ensures results { Published }
{
    12
}
