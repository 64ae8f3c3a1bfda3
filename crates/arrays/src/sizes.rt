// The sizes that an opening fixes.
ghost use Rattle.std.specs.Prelude.{◌≡◌};
ghost use Rattle.model.specs.Formed.{sized};

// The other side of answer 2.
pub fn sized(nodes: usize, destination: usize, links: usize) -> bool
    ensures { result ≡ sized nodes destination links }
{
    (1 <= nodes) & (nodes <= model::NODES) & (destination < nodes) & (links <= model::LINKS)
}
