// Each limit of the code is that of the definitions.
ghost use Rattle.std.specs.Prelude.{◌≡◌};
ghost use Rattle.model.specs.Limits.{nodes_most, links_most, ends_most, flight_most, events_most, file_most, number_most, text_most};

pub fn nodes() -> usize
    ensures { result ≡ nodes_most }
{
    model::NODES
}

pub fn links() -> usize
    ensures { result ≡ links_most }
{
    model::LINKS
}

pub fn ends() -> usize
    ensures { result ≡ ends_most }
{
    model::ENDS
}

pub fn flight() -> usize
    ensures { result ≡ flight_most }
{
    model::FLIGHT
}

pub fn events() -> u32
    ensures { result ≡ events_most }
{
    model::EVENTS
}

pub fn file() -> usize
    ensures { result ≡ file_most }
{
    model::FILE
}

pub fn number() -> u32
    ensures { result ≡ number_most }
{
    model::NUMBER
}

pub fn text_most() -> usize
    ensures { result ≡ text_most }
{
    model::TEXT_MOST
}
