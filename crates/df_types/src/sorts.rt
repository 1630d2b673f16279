//! Types, and which of them operators, comparisons and tests ask for.
ghost use Rattle.std.specs.Prelude.{◌≡◌};
ghost use Rattle.df_types.specs.Sorts.{is_same, is_basic, is_array, element_of, array_of, operator_sort, is_equality, is_of_any};

use df_syntax::tree::Sort;
use df_values::kinds::{Op, Rel, Test};
use df_values::values::Basic;

/// Whether two types are the same.
pub(crate) fn is_same(a: Sort, b: Sort) -> bool
    ensures { result ≡ is_same a b }
{
    match (a, b) {
        (Sort::Basic(Basic::Integer), Sort::Basic(Basic::Integer)) => true,
        (Sort::Basic(Basic::Boolean), Sort::Basic(Basic::Boolean)) => true,
        (Sort::Array(Basic::Integer), Sort::Array(Basic::Integer)) => true,
        (Sort::Array(Basic::Boolean), Sort::Array(Basic::Boolean)) => true,
        _ => false,
    }
}

/// Whether a type is basic.
pub(crate) fn is_basic(sort: Sort) -> bool
    ensures { result ≡ is_basic sort }
{
    match sort {
        Sort::Basic(_) => true,
        Sort::Array(_) => false,
    }
}

/// Whether a type is that of an array.
pub(crate) fn is_array(sort: Sort) -> bool
    ensures { result ≡ is_array sort }
{
    match sort {
        Sort::Basic(_) => false,
        Sort::Array(_) => true,
    }
}

/// The type of the elements of an array of this type.
pub(crate) fn element_of(sort: Sort) -> Sort
    ensures { result ≡ element_of sort }
{
    match sort {
        Sort::Basic(basic) => Sort::Basic(basic),
        Sort::Array(basic) => Sort::Basic(basic),
    }
}

/// The type of an array with elements of this type.
pub(crate) fn array_of(sort: Sort) -> Sort
    ensures { result ≡ array_of sort }
{
    match sort {
        Sort::Basic(basic) => Sort::Array(basic),
        Sort::Array(basic) => Sort::Array(basic),
    }
}

/// The type that an operator asks of its operands and has itself.
pub(crate) fn operator_sort(op: Op) -> Sort
    ensures { result ≡ operator_sort op }
{
    match op {
        Op::And => Sort::Basic(Basic::Boolean),
        Op::Or => Sort::Basic(Basic::Boolean),
        _ => Sort::Basic(Basic::Integer),
    }
}

/// Whether a comparison takes two operands of any one basic type, and not integers alone.
pub(crate) fn is_equality(rel: Rel) -> bool
    ensures { result ≡ is_equality rel }
{
    match rel {
        Rel::Eq => true,
        Rel::Ne => true,
        _ => false,
    }
}

/// Whether a test takes any basic type, and not integers alone.
pub(crate) fn is_of_any(test: Test) -> bool
    ensures { result ≡ is_of_any test }
{
    match test {
        Test::Undef => true,
        Test::MissElt => true,
        Test::Error => true,
        _ => false,
    }
}
