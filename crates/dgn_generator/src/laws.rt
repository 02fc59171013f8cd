//! A law over the definitions that the contracts cite. The function does nothing; its contract is the law.

ghost use Rattle.dgn_generator.specs.Generator.{GeneratedDrawingsOpen};

/// The drawing of any seed and of at most 200000 elements behind its TCB opens as these elements: a drawing of the
/// plane, each of whose elements is well formed. It has exactly as many elements as were asked for, and its TCB, and
/// it isn't too long for a design file.
pub fn generated_drawings_open()
    ensures { GeneratedDrawingsOpen }
{}
