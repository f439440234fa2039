//! A dependency that several have. Each call costs O(1); sharing takes no memory for it.
ghost use Rattle.std.specs.Prelude.{◌≡◌, IfOk};

use crate::DepExpr;
use gv_base::NoMemory;
use std::alloc::Global;
use std::marker::Model;
use std::rc::Rc;

/// A dependency that several may have.
#[derive(Drop)]
pub struct SharedDep {
    expr: Rc<DepExpr>,
}

impl Model for SharedDep {
    ghost use Rattle.std.specs.Prelude.{List};
    ghost use Rattle.gv_expr.specs.Dep.{Dep};
    ghost use Rattle.gv_expr.specs.DepStored.{deps_code};

    ghost Value = { List Dep };

    ghost coded = { deps_code };

    ghost view = { λ s. s.expr.value };
}

impl SharedDep {
    /// The dependency, which one has.
    pub fn new(alloc: Global, expr: DepExpr) -> Result<SharedDep, NoMemory>
        ensures { IfOk result (λ shared. shared ≡ expr) }
    {
        let expr = Rc::new(alloc, expr)?;
        Ok(SharedDep { expr })
    }

    /// The dependency.
    pub fn expr(&self) -> &DepExpr
        ensures { result.now ≡ self.now }
    {
        self.expr.as_ref()
    }

    /// The same dependency for one more.
    pub fn share(&self) -> Result<SharedDep, NoMemory>
        ensures { IfOk result (λ shared. shared ≡ self.now) }
    {
        let expr = self.expr.clone()?;
        Ok(SharedDep { expr })
    }
}
