// Each kind of event of the code is that of the definitions.
ghost use Rattle.std.specs.Prelude.{◌≡◌};
ghost use Rattle.model.specs.Events as event;
ghost use Rattle.model.specs.File.{kind};

pub fn send() -> u32
    ensures { result ≡ kind (event.send 0) }
{
    model::SEND
}

pub fn deliver() -> u32
    ensures { result ≡ kind (event.deliver 0) }
{
    model::DELIVER
}

pub fn lose() -> u32
    ensures { result ≡ kind (event.lose 0) }
{
    model::LOSE
}

pub fn fail() -> u32
    ensures { result ≡ kind (event.fail 0) }
{
    model::FAIL
}
