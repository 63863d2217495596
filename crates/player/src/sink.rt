// Where what is printed goes. A trait and no closure: each player's function would ask that the closure may be called.
ghost use Rattle.script.specs.declared.Output.{Output as Line};

use script::Output;

pub trait Sink {
    // how one line takes the sink from what it was to what it is
    ghost said: { Self → Line → Self → Type 0 };

    fn put(&mut self, o: Output)
        ensures { said self.old o self.new };
}
